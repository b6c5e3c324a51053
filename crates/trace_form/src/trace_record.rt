//! The record of one access, and the frames of its chain.

ghost use Rattle.std.specs.Prelude.{◌≡◌, ℕ, List};
ghost use Rattle.std.specs.Iterator.{YieldsFirstRef, item_count};
ghost use Rattle.trace_form.specs.Grammar.{frames};

use crate::cuts::cut;
use crate::words::{Kind, Mode};
use std::marker::Model;

/// One access of a run. The names are slices of the trace.
#[derive(Clone, Copy, Debug)]
pub struct Record<'a> {
    /// What the access does.
    pub kind: Kind,
    /// Whether it goes to what is shared, or to a private copy.
    pub mode: Mode,
    /// The name of the actor's compartment.
    pub comp: &'a [u8],
    /// The names of the frames, outermost first, with a `;` between each two.
    pub chain: &'a [u8],
    /// What is accessed: a prefix that goes with the kind, and a name, a path, or a name and an
    /// address.
    pub item: &'a [u8],
}

impl<'a> Record<'a> {
    /// The frames of the chain, outermost first, as slices of the trace. It takes no memory.
    pub fn frames(&self) -> Frames<'a>
        ensures { result ≡ frames self.now.chain.now }
    {
        frames_of(self.chain)
    }
}

/// The frames of a chain that are left, outermost first. Contracts see it as the list of them.
#[derive(Debug, Drop)]
pub struct Frames<'a> {
    rest: Option<&'a [u8]>,
}

impl<'a> Model for Frames<'a> {
    ghost use Rattle.std.specs.Prelude.{ℕ, List};
    ghost use Rattle.std.specs.Option.{option_copied};
    ghost use Rattle.trace_form.specs.TraceRecord.{frames_left};

    ghost Value = { List (List ℕ) };

    ghost view = { λ f. frames_left (option_copied f.rest) };
}

/// The frames of a chain.
pub(crate) fn frames_of(chain: &[u8]) -> Frames<'_>
    ensures { result ≡ frames chain.now }
{
    Frames { rest: Some(chain) }
}

/// The next frame is a slice of the trace. It takes no memory.
impl<'a> Iterator for Frames<'a> {
    type Item = &'a [u8];

    ghost next_gives = { YieldsFirstRef (λ s. s) };

    ghost remaining = { item_count (λ s. s) };

    fn next(&mut self) -> Option<&'a [u8]> {
        let chain = self.rest?;
        match cut(b';', chain) {
            None => {
                self.rest = None;
                Some(chain)
            }
            Some((frame, rest)) => {
                self.rest = Some(rest);
                Some(frame)
            }
        }
    }
}
