//! The values of the names of a text.

ghost use Rattle.std.specs.Prelude.{◌≡◌, option_map, IfOk, OnOk};
ghost use Rattle.rv_asm.specs.Assembly as assembly;
ghost use Rattle.rv_asm.specs.Views.{equates_view, labels_view};

use crate::assembled::Equate;
use std::alloc::Global;
use std::collections::HashMap;
use wedge_base::NoMemory;

/// The line and the address of a label.
#[derive(Clone, Copy, Debug, PartialEq, Eq)]
pub(crate) struct Label {
    /// The number of its line.
    pub line: usize,
    pub address: u32,
}

/// The values of equates.
#[derive(Drop)]
pub(crate) struct Equates<'a> {
    map: HashMap<&'a [u8], u32>,
}

/// The labels of a text.
#[derive(Drop)]
pub(crate) struct Labels<'a> {
    map: HashMap<&'a [u8], Label>,
}

impl<'a> Equates<'a> {
    /// The equates of a list. Of those with one name, the first counts.
    pub fn new(alloc: Global, names: &'a [Equate]) -> Result<Equates<'a>, NoMemory>
        ensures { IfOk result (λ e. equates_view e ≡ assembly.equates_of names.now) }
    {
        let mut map = HashMap::new(alloc);
        for equate in names {
            let name = equate.name.as_slice();
            if !map.contains_key(name) {
                map.insert(name, equate.value)?;
            }
        }
        Ok(Equates { map })
    }

    /// The value of a name.
    pub fn get(&self, name: &[u8]) -> Option<u32>
        ensures { result ≡ equates_view self.now name.now }
    {
        self.map.get(name).copied()
    }
}

impl<'a> Labels<'a> {
    /// No labels.
    pub fn new(alloc: Global) -> Labels<'a>
        ensures { labels_view result ≡ assembly.no_labels }
    {
        Labels {
            map: HashMap::new(alloc),
        }
    }

    /// The label of a name.
    pub fn get(&self, name: &[u8]) -> Option<Label>
        ensures { result ≡ labels_view self.now name.now }
    {
        self.map.get(name).copied()
    }

    /// Gives a name to a label.
    pub fn define(&mut self, name: &'a [u8], label: Label) -> Result<(), NoMemory>
        ensures { OnOk result (labels_view self.new
            ≡ assembly.with_label name.now label (labels_view self.old)) }
    {
        self.map.insert(name, label)?;
        Ok(())
    }
}
