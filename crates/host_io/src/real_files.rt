//! The files of the system.

ghost use Rattle.std.specs.Prelude.{◌≡◌, ℕ, ◌≤◌, List, length, None, IfOk};

use crate::count::Count;
use crate::errors::Failed;
use crate::files::Files;
use std::alloc::Global;
use std::fs::File;
use std::io::{self, Read, Seek, SeekFrom};
use std::rt;

/// A file that was opened: its name, unless memory ran out for that, and the offset of the byte
/// that will be read next.
#[derive(Drop)]
struct Opened<F> {
    name: Option<String>,
    file: F,
    at: u64,
}

impl<F> Opened<F> {
    /// Whether it goes on there.
    fn is_at(&self, name: &str, at: u64) -> bool {
        match &self.name {
            Some(known) => known.as_str() == name && self.at == at,
            None => false,
        }
    }
}

/// The files of the system. They expose no bytes: what a file holds is for the system to say. Whatever it
/// answers in place of bytes is a failure, and so is a name that it cannot open.
#[derive(Drop)]
pub struct RealFiles<'a, R: rt::Files> {
    rt: &'a R,
    alloc: Global,
    last: Option<Opened<R::File>>,
    faults: Count,
}

impl<'a, R: rt::Files> RealFiles<'a, R> {
    /// The files that a runtime opens. No read of them has failed yet.
    pub fn new(rt: &'a R, alloc: Global) -> RealFiles<'a, R>
        ensures { (name : List ℕ) → ⟦<RealFiles<'a, R> as Files>⟧.faults result name ≡ 0 }
    {
        RealFiles {
            rt,
            alloc,
            last: None,
            faults: Count::zero(),
        }
    }

    /// Opens a file, to be read from an offset on.
    fn open_at(&self, name: &str, at: u64) -> io::Result<Opened<R::File>> {
        let mut file = File::open(self.rt, name)?;
        if at > 0 {
            file.seek(SeekFrom::Start(at))?;
        }
        Ok(Opened {
            name: String::from_str(self.alloc, name).ok(),
            file,
            at,
        })
    }

    /// Reads on in the file that was read last, or opens another.
    fn read_at(&mut self, name: &str, at: u64, buf: &mut [u8]) -> io::Result<usize>
        ensures within { IfOk result (λ n. n ≤ length buf.new) }
        ensures faults { self.new.faults ≡ self.old.faults }
    {
        let mut opened = match self.last.take() {
            Some(last) if last.is_at(name, at) => last,
            _ => self.open_at(name, at)?,
        };
        let count = opened.file.read(buf)?;
        opened.at = at.saturating_add(count as u64);
        self.last = Some(opened);
        Ok(count)
    }
}

impl<R: rt::Files> Files for RealFiles<'_, R> {
    ghost content = { λ _ _. None };

    ghost faults = { λ f _. f.faults.value };

    fn read(&mut self, name: &str, at: u64, buf: &mut [u8]) -> Result<usize, Failed> {
        match self.read_at(name, at, buf) {
            Ok(count) => Ok(count),
            Err(_) => {
                self.faults.raise();
                Err(Failed)
            }
        }
    }
}
