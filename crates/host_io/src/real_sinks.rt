//! The output and the error output of the process.

ghost use Rattle.std.specs.Prelude.{◌≡◌, None};

use crate::count::Count;
use crate::errors::Failed;
use crate::sinks::Sink;
use std::io::{Print, Stderr, Stdout};

/// An output of the process. It exposes no bytes: what became of them is for the system to say.
#[derive(Drop)]
pub struct RealSink<P: Print> {
    to: P,
    faults: Count,
}

/// The output of the process.
pub type RealOut = RealSink<Stdout>;

/// The error output of the process.
pub type RealErr = RealSink<Stderr>;

impl<P: Print> RealSink<P> {
    /// The sink that prints there. No write has failed yet.
    pub fn new(to: P) -> RealSink<P>
        ensures { ⟦<RealSink<P> as Sink>⟧.faults result ≡ 0 }
    {
        RealSink {
            to,
            faults: Count::zero(),
        }
    }
}

impl<P: Print> Sink for RealSink<P> {
    ghost written = { λ _. None };

    ghost faults = { λ s. s.faults.value };

    fn write(&mut self, piece: &[u8]) -> Result<usize, Failed> {
        match self.to.write_some(piece) {
            Ok(count) if count > 0 || piece.is_empty() => Ok(count),
            _ => {
                self.faults.raise();
                Err(Failed)
            }
        }
    }
}
