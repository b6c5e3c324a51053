//! The log of an actor of a run.

ghost use Rattle.std.specs.Prelude.{◌≡◌};
ghost use Rattle.thread_laws.specs.KeptEntries.{IsKept};

use journal_cell::RunOf;
use std::marker::{Model, PhantomData};
use thread_laws::ActorLog;

/// The log of an actor of a run: it keeps all its entries but those on the slots of which the run keeps none. Contracts see it
/// as the log.
pub struct KeptLog<I: RunOf> {
    log: ActorLog,
    run: PhantomData<I>,
}

// By hand: a derived drop would be proved again in each function that drops one.
impl<I: RunOf> Drop for KeptLog<I> {
    fn drop(self) {
        let Self { log: _, run: _ } = self;
    }
}

impl<I: RunOf> Model for KeptLog<I> {
    ghost use Rattle.thread_laws.specs.KeptEntries.{IsKept};
    ghost use Rattle.thread_laws.specs.declared.gathered.ActorLog.{ActorLog as Plain};

    ghost Value = { Plain };

    ghost view = { λ l. l.log };

    ghost invariant = { λ l. IsKept I.unkept l.log };
}

impl<I: RunOf> KeptLog<I> {
    /// Returns the log of an actor, which keeps what logs of the run keep.
    pub(crate) fn new(log: ActorLog) -> KeptLog<I>
        requires { IsKept I.unkept log }
        ensures { result ≡ log }
    {
        KeptLog {
            log,
            run: PhantomData,
        }
    }

    /// Consumes it, and returns the log.
    pub fn into_log(self) -> ActorLog
        ensures is { result ≡ self }
        ensures kept { IsKept I.unkept result }
    {
        let KeptLog { log, run: _run } = self;
        log
    }
}
