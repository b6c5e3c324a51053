//! What is kept of a run beside its world.

ghost use Rattle.std.specs.Prelude.{◌≡◌, IfOk};
ghost use Rattle.run_log.specs.Logging.{opening_log};
ghost use Rattle.run_notes.specs.Procedures.{AreProceduresOf};

use image_form::Image;
use run_notes::{CallChain, Makings, Note, Procedures};
use std::alloc::Global;
use std::marker::Model;
use wedge_base::NoMemory;

/// The chain of calls of each actor, in the order of their starts, what the actors made, and the notes.
#[derive(Drop)]
pub(crate) struct Log {
    pub chains: Vec<CallChain>,
    pub makings: Makings,
    pub notes: Vec<Note>,
}

impl Model for Log {
    ghost use Rattle.run_log.specs.Logs.{Log as Plain};

    ghost Value = { Plain };

    ghost view = { λ l. record { chains = l.chains.items; makings = l.makings; notes = l.notes.items } };
}

impl Log {
    /// The log of a run as it begins.
    fn opening(alloc: Global, image: &Image) -> Result<Log, NoMemory>
        ensures { IfOk result (λ l. l ≡ opening_log image.now) }
    {
        let mut chains = Vec::new(alloc);
        chains.push(CallChain::opening(alloc, image.entry())?)?;
        Ok(Log {
            chains,
            makings: Makings::new(alloc),
            notes: Vec::new(alloc),
        })
    }
}

/// What is kept of a run beside its world, with the procedures of its image by address.
#[derive(Drop)]
pub struct RunLog {
    pub(crate) procedures: Procedures,
    pub(crate) log: Log,
}

impl RunLog {
    /// The log of a run as it begins.
    pub fn opening(alloc: Global, image: &Image) -> Result<RunLog, NoMemory>
        ensures log { IfOk result (λ l. l.log ≡ opening_log image.now) }
        ensures procedures { IfOk result (λ l. AreProceduresOf image.now l.procedures) }
    {
        Ok(RunLog {
            procedures: Procedures::new(alloc, image)?,
            log: Log::opening(alloc, image)?,
        })
    }

    /// Returns the notes, in order.
    pub fn notes(&self) -> &[Note]
        ensures { result.now ≡ self.now.log.notes }
    {
        self.log.notes.as_slice()
    }
}
