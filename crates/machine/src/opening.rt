//! A file that an actor is opening, and the paths of those that it opened.

ghost use Rattle.std.specs.Prelude.{◌≡◌, Some, IfOk};
ghost use Rattle.machine.specs.Calls.{opening_of};
ghost use Rattle.machine.specs.Take.{opening_want};

use std::alloc::Global;
use std::marker::Model;
use wedge_base::{Bytes, FdBits, FdNo, FileEntry, NoMemory, PathText, StreamKind};
use wedge_events::{Boxed, DirectoryAsk, StreamAsk, Want};

/// The path under which an actor opened the stream of a descriptor.
#[derive(Debug, Drop)]
pub struct StreamLabel {
    pub number: FdNo,
    pub path: PathText,
}

/// A file that an actor is opening: a number is claimed for its descriptor first, and then its stream is opened.
#[derive(Debug, Drop)]
pub struct FileOpening {
    // Boxed, so that what an actor is at is no larger than what it wants.
    inside: Box<Inside>,
}

#[derive(Debug, Drop)]
struct Inside {
    path: PathText,
    kind: StreamKind,
    bytes: Boxed<Bytes>,
    bits: FdBits,
    /// The number that was claimed.
    number: Option<FdNo>,
}

impl Model for FileOpening {
    ghost use Rattle.machine.specs.Opening.{FileOpening as Plain};

    ghost Value = { Plain };

    ghost view = { λ o. record {
      path = o.inside.value.path;
      kind = o.inside.value.kind;
      bytes = o.inside.value.bytes;
      bits = o.inside.value.bits;
      number = o.inside.value.number;
    } };
}

impl FileOpening {
    /// A file that is to be opened under a path, with bits.
    pub fn new(
        alloc: Global,
        path: PathText,
        file: &FileEntry,
        bits: FdBits,
    ) -> Result<FileOpening, NoMemory>
        ensures { IfOk result (λ o. o ≡ opening_of path file.now bits) }
    {
        let inside = Inside {
            path,
            kind: file.kind,
            bytes: Boxed::new(alloc, file.content.copy()?)?,
            bits,
            number: None,
        };
        Ok(FileOpening {
            inside: Box::new(alloc, inside)?,
        })
    }

    /// What its actor wants next.
    pub fn want(&self) -> Result<Want, NoMemory>
        ensures { IfOk result (λ q. q ≡ opening_want self.now self.now.number) }
    {
        let inside = &*self.inside;
        match inside.number {
            None => Ok(Want::Fds(DirectoryAsk::Claim)),
            Some(fd) => {
                let kind = inside.kind;
                let bytes = inside.bytes.clone()?;
                Ok(Want::Fd {
                    fd,
                    ask: StreamAsk::Open { kind, bytes },
                })
            }
        }
    }

    /// A number is claimed for its descriptor.
    pub fn set_number(&mut self, fd: FdNo)
        ensures { self.new ≡ record self.old { number = Some fd } }
    {
        self.inside.number = Some(fd);
    }

    /// The bits that are asked for.
    pub fn bits(&self) -> FdBits
        ensures { result ≡ self.now.bits }
    {
        self.inside.bits
    }

    /// Consumes it and returns the path.
    pub fn into_path(self) -> PathText
        ensures { result ≡ self.path }
    {
        let FileOpening { inside } = self;
        let Inside { path, .. } = Box::into_inner(inside);
        path
    }
}
