//! The procedures of an image, by address.

ghost use Rattle.std.specs.Prelude.{◌≡◌, IfOk};
ghost use Rattle.std.specs.List.Sorted.{IsPermutation};
ghost use Rattle.image_form.specs.Address.{greatest_from};
ghost use Rattle.image_form.specs.Rules as rules;
ghost use Rattle.run_notes.specs.Procedures.{AreProceduresOf};

use image_form::Image;
use std::alloc::Global;
use std::marker::Model;
use wedge_base::{NoMemory, Procedure};

/// The addresses of an image's procedures, ascending. The procedure of an address is found by binary search, where
/// the image itself would look at all of them.
#[derive(Debug, Drop)]
pub struct Procedures {
    addresses: Vec<u32>,
}

impl Model for Procedures {
    ghost use Rattle.std.specs.Prelude.{ℕ, List};
    ghost use Rattle.std.specs.List.Sorted.{IsNonDecreasing};

    ghost Value = { List ℕ };

    ghost view = { λ p. p.addresses.items };

    ghost invariant = { λ p. IsNonDecreasing p.addresses.items };
}

impl Procedures {
    /// The procedures of an image.
    pub fn new(alloc: Global, image: &Image) -> Result<Procedures, NoMemory>
        ensures { IfOk result (λ p. AreProceduresOf image.now p) }
    {
        let mut addresses = addresses_of(alloc, image.procedures())?;
        addresses.sort_unstable();
        Ok(Procedures { addresses })
    }

    /// The greatest address of a procedure that is not above an address, or 0 where all are above it.
    pub fn proc_of(&self, address: u32) -> u32
        ensures { result ≡ greatest_from 0 address self.now }
    {
        let count = self
            .addresses
            .partition_point(|procedure| *procedure <= address);
        if count == 0 {
            return 0;
        }
        self.addresses[count - 1]
    }
}

/// The addresses of procedures, in their order.
fn addresses_of(alloc: Global, procedures: &[Procedure]) -> Result<Vec<u32>, NoMemory>
    ensures { IfOk result (λ v. v.items ≡ rules.addresses procedures.now) }
{
    let mut addresses = Vec::with_capacity(alloc, procedures.len())?;
    for procedure in procedures {
        addresses.push(procedure.address)?;
    }
    Ok(addresses)
}
