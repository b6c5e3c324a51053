//! Numbers that name things. Contracts see each as the number itself.

use std::marker::Model;

/// The number of a tag. Declared tags are numbered by their indices, from 0.
#[derive(Clone, Copy, Debug, PartialEq, Eq)]
pub struct TagNo(pub u32);

impl Model for TagNo {
    ghost use Rattle.std.specs.Prelude.{ℕ};

    ghost Value = { ℕ };

    ghost view = { λ t. t.0 };

    ghost inverse = { λ n. record { 0 = n } };
}

/// The number of a descriptor. Declared descriptors are numbered by their indices, from 0.
#[derive(Clone, Copy, Debug, PartialEq, Eq)]
pub struct FdNo(pub u32);

impl Model for FdNo {
    ghost use Rattle.std.specs.Prelude.{ℕ};

    ghost Value = { ℕ };

    ghost view = { λ f. f.0 };

    ghost inverse = { λ n. record { 0 = n } };
}

/// The number of a slot: the index of a window in the address space. The slots of a run are below
/// 4,096.
#[derive(Clone, Copy, Debug, PartialEq, Eq)]
pub struct Slot(pub u32);

impl Model for Slot {
    ghost use Rattle.std.specs.Prelude.{ℕ};

    ghost Value = { ℕ };

    ghost view = { λ s. s.0 };

    ghost inverse = { λ n. record { 0 = n } };
}

/// The position of an entry in its journal, from 1.
#[derive(Clone, Copy, Debug, PartialEq, Eq)]
pub struct Stamp(pub u64);

impl Model for Stamp {
    ghost use Rattle.std.specs.Prelude.{ℕ};

    ghost Value = { ℕ };

    ghost view = { λ s. s.0 };

    ghost inverse = { λ n. record { 0 = n } };
}
