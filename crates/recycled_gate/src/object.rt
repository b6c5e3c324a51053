//! A recycled gate as a cell.

ghost use Rattle.std.specs.Prelude.{◌≡◌, IfOk};
ghost use Rattle.wedge_events.specs.Gates.{gate_reply};

use crate::kept::Kept;
use wedge_base::NoMemory;
use wedge_events::{GateAsk, GateReply, Object};

impl Object for Kept {
    ghost use Rattle.std.specs.Prelude.{◌≡◌, IfOk, OnErr};
    ghost use Rattle.wedge_events.specs.Gates.{gate_opening, gate_reply, gate_next, GateFits};

    type Ask = GateAsk;

    type Reply = GateReply;

    ghost reply = { gate_reply };

    ghost next = { gate_next };

    ghost opening = { λ _ _. gate_opening };

    ghost fits = { λ _ k q. GateFits k q };

    fn act(&mut self, ask: &GateAsk) -> Result<(GateReply, GateReply), NoMemory>
        requires { GateFits self.old ask.now }
        ensures first { IfOk result (λ r. r.0 ≡ gate_reply self.old ask.now) }
        ensures second { IfOk result (λ r. r.1 ≡ gate_reply self.old ask.now) }
        ensures after { IfOk result (λ r. self.new ≡ gate_next self.old ask.now) }
        ensures err { OnErr result (self.new ≡ self.old) }
    {
        let second = self.reply_to(ask)?;
        let first = self.act_once(ask)?;
        Ok((first, second))
    }

    fn act_once(&mut self, ask: &GateAsk) -> Result<GateReply, NoMemory>
        requires { GateFits self.old ask.now }
        ensures is { IfOk result (λ r. r ≡ gate_reply self.old ask.now) }
        ensures after { IfOk result (λ r. self.new ≡ gate_next self.old ask.now) }
        ensures err { OnErr result (self.new ≡ self.old) }
    {
        match ask {
            GateAsk::Enter { memory, .. } => {
                let opening = memory.copy(self.alloc)?;
                let memory = self.enter(opening);
                Ok(GateReply::Entered { memory })
            }
            GateAsk::Leave { memory, .. } => {
                let memory = memory.copy(self.alloc)?;
                self.leave(memory);
                Ok(GateReply::Left)
            }
        }
    }

    fn copy_ask(ask: &GateAsk) -> Result<GateAsk, NoMemory>
        ensures { IfOk result (λ a. a ≡ ask.now) }
    {
        let (GateAsk::Enter { memory, .. } | GateAsk::Leave { memory, .. }) = ask;
        ask.copy(memory.allocator())
    }
}

impl Kept {
    /// The reply to an ask. The state stays as it is.
    fn reply_to(&self, ask: &GateAsk) -> Result<GateReply, NoMemory>
        ensures { IfOk result (λ r. r ≡ gate_reply self.now ask.now) }
    {
        match ask {
            GateAsk::Enter { memory, .. } => {
                let memory = self.kept().unwrap_or(memory).copy(self.alloc)?;
                Ok(GateReply::Entered { memory })
            }
            GateAsk::Leave { .. } => Ok(GateReply::Left),
        }
    }
}
