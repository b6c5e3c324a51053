//! A count for proofs.

ghost use Rattle.std.specs.Prelude.{◌≡◌, ℕ, ◌+◌};
ghost use base.Fml.{ftrue};

use std::marker::{Model, PhantomData};

/// How often a device has failed. Only proofs read it: it takes no memory, and so there is no greatest
/// count after which a further failure could not be counted.
pub struct Count {
    marker: PhantomData<()>,
    pub ghost value: { ℕ },
}

impl Model for Count {
    ghost also_owns = { λ _. ftrue };
}

impl Count {
    /// The count of a new device.
    pub fn zero() -> Count
        ensures { result.value ≡ 0 }
    {
        Count {
            marker: PhantomData,
        }
    }

    /// Counts one more failure.
    pub fn raise(&mut self)
        ensures { self.new.value ≡ self.old.value + 1 }
    {}
}

impl Drop for Count {
    fn drop(self) {
        let Self { marker: _ } = self;
    }
}
