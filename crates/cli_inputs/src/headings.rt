//! The names of an image's procedures, by where they begin.

ghost use Rattle.std.specs.Prelude.{◌≡◌, ℕ, IfOk};
ghost use Rattle.wedge_base.specs.Images.{procedure_name};
ghost use Rattle.cli_inputs.specs.Headings.{heading_at};

use image_form::Image;
use std::alloc::Global;
use std::collections::HashMap;
use wedge_base::NoMemory;

/// The name of each procedure of an image, by its address.
#[derive(Drop)]
pub struct Headings<'a> {
    names: HashMap<u32, &'a [u8]>,
}

impl<'a> Headings<'a> {
    /// The names of an image's procedures.
    pub fn new(alloc: Global, image: &'a Image) -> Result<Headings<'a>, NoMemory>
        ensures { IfOk result (λ h. (address : ℕ)
            → heading_at h address ≡ procedure_name image.now address) }
    {
        // From the last to the first: at an address that two have the first would hold, as for a search.
        let procedures = image.procedures();
        let mut names = HashMap::new(alloc);
        let mut left = procedures.len();
        while left > 0 {
            left -= 1;
            let procedure = &procedures[left];
            names.insert(procedure.address, procedure.name.as_slice())?;
        }
        Ok(Headings { names })
    }

    /// The name of the procedure that begins at an address, or no bytes where none does.
    pub fn at(&self, address: u32) -> &[u8]
        ensures { result.now ≡ heading_at self.now address }
    {
        match self.names.get(&address) {
            Some(name) => name,
            None => &[],
        }
    }
}
