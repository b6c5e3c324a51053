//! Equal copies of asks, replies, wants and events. Pages are shared, not copied, and so are the parts of
//! long names.

ghost use Rattle.std.specs.Prelude.{◌≡◌, IfOk};

use crate::boxed::Boxed;
use crate::cells::{GateAsk, GateReply, SlotReply, StreamAsk, StreamReply};
use crate::events::{Event, Want};
use std::alloc::Global;
use wedge_base::NoMemory;

impl SlotReply {
    /// An equal reply.
    pub fn copy(&self) -> Result<SlotReply, NoMemory>
        ensures { IfOk result (λ r. r ≡ self.now) }
    {
        Ok(self.clone()?)
    }
}

impl StreamAsk {
    /// An equal ask.
    pub fn copy(&self) -> Result<StreamAsk, NoMemory>
        ensures { IfOk result (λ q. q ≡ self.now) }
    {
        Ok(self.clone()?)
    }
}

impl StreamReply {
    /// An equal reply.
    pub fn copy(&self) -> Result<StreamReply, NoMemory>
        ensures { IfOk result (λ r. r ≡ self.now) }
    {
        Ok(self.clone()?)
    }
}

impl GateAsk {
    /// An equal ask.
    pub fn copy(&self, alloc: Global) -> Result<GateAsk, NoMemory>
        ensures { IfOk result (λ q. q ≡ self.now) }
    {
        Ok(match self {
            GateAsk::Enter { run, memory } => GateAsk::Enter {
                run: run.copy()?,
                memory: memory.copy(alloc)?,
            },
            GateAsk::Leave { end, memory } => GateAsk::Leave {
                end: *end,
                memory: memory.copy(alloc)?,
            },
        })
    }
}

impl GateReply {
    /// An equal reply.
    pub fn copy(&self, alloc: Global) -> Result<GateReply, NoMemory>
        ensures { IfOk result (λ r. r ≡ self.now) }
    {
        Ok(match self {
            GateReply::Entered { memory } => GateReply::Entered {
                memory: memory.copy(alloc)?,
            },
            GateReply::Left => GateReply::Left,
        })
    }
}

impl Want {
    /// An equal want.
    #[inline(always)]
    pub fn copy(&self, alloc: Global) -> Result<Want, NoMemory>
        ensures { IfOk result (λ q. q ≡ self.now) }
    {
        match self {
            Want::Slot { slot, want } => Ok(Want::Slot {
                slot: *slot,
                want: *want,
            }),
            _ => self.copy_other(alloc),
        }
    }

    /// An equal want, which may be of any kind.
    #[inline(never)]
    fn copy_other(&self, alloc: Global) -> Result<Want, NoMemory>
        ensures { IfOk result (λ q. q ≡ self.now) }
    {
        Ok(match self {
            Want::Slots(ask) => Want::Slots(*ask),
            Want::Slot { slot, want } => Want::Slot {
                slot: *slot,
                want: *want,
            },
            Want::Fds(ask) => Want::Fds(*ask),
            Want::Fd { fd, ask } => Want::Fd {
                fd: *fd,
                ask: ask.copy()?,
            },
            Want::Lives(ask) => Want::Lives(*ask),
            Want::Gate { gate, ask } => Want::Gate {
                gate: gate.copy()?,
                ask: ask.copy(alloc)?,
            },
            Want::Start { child } => Want::Start {
                child: child.copy()?,
            },
            Want::Join { child } => Want::Join { child: *child },
            Want::Enter { run } => Want::Enter { run: run.copy()? },
            Want::Leave { end } => Want::Leave { end: *end },
        })
    }
}

impl Event {
    /// An equal event.
    pub fn copy(&self, alloc: Global) -> Result<Event, NoMemory>
        ensures { IfOk result (λ e. e ≡ self.now) }
    {
        Ok(match self {
            Event::Slots { ask, reply } => Event::Slots {
                ask: *ask,
                reply: *reply,
            },
            Event::Slot { slot, ask, reply } => Event::Slot {
                slot: *slot,
                ask: *ask,
                reply: reply.copy()?,
            },
            Event::Fds { ask, reply } => Event::Fds {
                ask: *ask,
                reply: *reply,
            },
            Event::Fd { fd, ask, reply } => Event::Fd {
                fd: *fd,
                ask: ask.copy()?,
                reply: reply.copy()?,
            },
            Event::Lives { ask, reply } => Event::Lives {
                ask: *ask,
                reply: *reply,
            },
            Event::Gate { gate, ask, reply } => Event::Gate {
                gate: Boxed::new(alloc, gate.copy()?)?,
                ask: Boxed::new(alloc, ask.copy(alloc)?)?,
                reply: reply.copy(alloc)?,
            },
            Event::Start { child } => Event::Start {
                child: child.copy()?,
            },
            Event::Join { child, end, fuel } => Event::Join {
                child: *child,
                end: *end,
                fuel: *fuel,
            },
            Event::Enter { run } => Event::Enter { run: run.copy()? },
            Event::Leave { end } => Event::Leave { end: *end },
        })
    }
}
