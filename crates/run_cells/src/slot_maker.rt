//! What an actor asks of a slot, made while it has the slot.

use crate::enter::is_in_bounds;
use actor_run::ActorRun;
use journal_cell::RunOf;
use ruled_cell::AskMaker;
use std::marker::Model;
use tag_segment::SlotState;
use wedge_base::Slot;
use wedge_events::{SlotAsk, SlotWant};

/// Makes what an actor asks of a slot, by the tag that lives there.
#[derive(Drop)]
pub(crate) struct SlotMaker<'a, I: RunOf> {
    pub run: &'a ActorRun<I>,
    pub slot: Slot,
    pub want: SlotWant,
}

impl<'a, I: RunOf> Model for SlotMaker<'a, I> {
    ghost use Rattle.wedge_events.specs.declared.events.Want.{Want as AWant};
    ghost use Rattle.machine.specs.Between.{WantFits};
    ghost use Rattle.run_cells.specs.TagPasses.{SlotAsker};

    ghost Value = { SlotAsker };

    ghost view = { λ m. record {
      actor = m.run.now.progress.state;
      slot = m.slot;
      want = m.want;
    } };

    ghost invariant = { λ m.
        WantFits m.run.now.progress.state (AWant.Slot m.slot m.want) };
}

impl<'a, I: RunOf> AskMaker<SlotState> for SlotMaker<'a, I> {
    ghost use Rattle.run_cells.specs.TagPasses.{ask_made, AskFits};

    ghost makes = { ask_made };

    ghost finds = { AskFits };

    #[inline(always)]
    fn ask(&self, state: &SlotState) -> SlotAsk {
        let live = state.live();
        let ask = self.want.with(self.run.pair(live));
        is_in_bounds(state, self.slot, &ask);
        ask
    }
}
