//! The names of an image's procedures, by where they begin.

ghost use Rattle.std.specs.Prelude.{◌≡◌, ℕ, IfOk};
ghost use Rattle.image_form.specs.Rules.{IsImage};
ghost use Rattle.cb_log.specs.Names.{AreNamesOf, name_at};

use image_form::Image;
use std::alloc::Global;
use std::collections::HashMap;
use wedge_base::NoMemory;

/// The name of each procedure of an image, by its address: a trace names them in every line.
#[derive(Drop)]
pub(crate) struct Names<'a> {
    names: HashMap<u32, &'a [u8]>,
}

impl<'a> Names<'a> {
    /// The names of an image's procedures.
    pub fn new(alloc: Global, image: &'a Image) -> Result<Names<'a>, NoMemory>
        ensures names { IfOk result (AreNamesOf image.now) }
        ensures valid { IfOk result (λ _. IsImage image.now) }
    {
        // From the last to the first: at an address that two have the first would hold, as for a search.
        let procedures = image.procedures();
        let mut names = HashMap::new(alloc);
        let mut left = procedures.len();
        while left > 0 {
            left -= 1;
            let procedure = &procedures[left];
            names.insert(procedure.address, procedure.name.as_slice())?;
        }
        Ok(Names { names })
    }

    /// The name of the procedure that begins at an address, or no bytes where none does.
    pub fn at(&self, address: u32) -> &[u8]
        ensures { result.now ≡ name_at self.now address }
    {
        match self.names.get(&address) {
            Some(name) => name,
            None => &[],
        }
    }
}
