//! One turn of a pass at a cell.

ghost use Rattle.std.specs.Prelude.{◌≡◌, ◌<◌, ◌+◌, ◌∷◌, [], ◌⊎◌, IfOk, OnErr, MatchOption, Option, Some, None};
ghost use Rattle.journal_cell.specs.Histories.{CellState, IsKeptCell, entry_at, cell_after, pass_after};
ghost use Rattle.journal_cell.specs.declared.entry.Entry.{Entry as AnEntry};
ghost use Rattle.ruled_cell.specs.Passes.{IsIdle, IsVisit, IsNewEntry};
ghost use Rattle.ruled_cell.specs.Enter.{highest_ticket, HasTicket, IsCellAsked, HoldsCell};
ghost use Rattle.ruled_cell.specs.Order.{with_ticket, IsServed, HasPassedOn};

use crate::cells::RuledCells;
use crate::order::{Draw, Look, PassOn};
use crate::passes::{PassSeat, RuledPass};
use journal_cell::{Entry, Pass, RunOf};
use std::hint::spin_loop;
use std::sync::Wait;
use wedge_base::NoMemory;
use wedge_events::Object;

/// How often a waiter looks before it parks. Most turns are shorter than the two system calls by which a thread
/// parks and another wakes it.
const LOOKS: u32 = 100;

/// What makes the ask of an entry from the state of the cell, once it is the turn of the pass.
pub trait AskMaker<O: Object> {
    // The ask that it makes in a state.
    ghost makes: { Self → O → O.Ask };
    // What it finds out about a state.
    ghost finds: { Self → O → Type 0 };

    /// Returns the ask.
    fn ask(&self, state: &O) -> O::Ask
        ensures makes { result ≡ makes self.now state.now }
        ensures finds { finds self.now state.now };
}

impl<O: Object, I: RunOf> RuledCells<O, I> {
    /// Waits until it is the turn of a pass at a cell, asks the cell what `maker` makes of its state, adds the
    /// entry that comes of it to the history, and returns an equal one, as `GhostJournaled::enter` does. The next
    /// ticket is served then.
    ///
    /// Fails only where out of memory, where no stamp is left, or where 2^64 - 1 tickets of the cell were drawn.
    /// The actor is then as before. The pass is as before where no ticket was drawn; otherwise it waited for its
    /// turn and passed it on, so it has seen what was entered up to there, and entered nothing.
    #[inline(always)]
    pub fn enter<R: Wait, M: AskMaker<O>>(
        &self,
        rt: &R,
        pass: &mut RuledPass<O, I>,
        cell: usize,
        actor: &mut Pass<'_>,
        maker: &M,
    ) -> Result<Entry<O::Ask, O::Reply>, NoMemory>
        requires table { (pass.old.table ≡ self.now) × (cell < pass.old.table.slots) }
        requires fits { (state : O) → M.finds maker.now state
            → O.fits I.image state (M.makes maker.now state) }
        ensures table { pass.new.table ≡ pass.old.table }
        ensures visit { IfOk result (λ e. IsVisit cell (Some e) pass.old.view pass.new.view) }
        ensures entry { IfOk result (λ e.
            IsNewEntry O.reply O.next (IsKeptCell (O.fits I.image) O.reply O.next (O.opening I.image))
            (M.makes maker.now) (M.finds maker.now) cell actor.old e pass.new.view) }
        ensures actor { IfOk result (λ e. actor.new ≡ pass_after actor.old e) }
        ensures err { OnErr result
            ((pass.new ≡ pass.old) ⊎ IsVisit cell None pass.old.view pass.new.view) }
        ensures err_actor { OnErr result (actor.new ≡ actor.old) }
    {
        let Some(ticket) = self.draw(rt, &mut pass.seat, cell) else {
            return Err(NoMemory);
        };
        self.take_turn(rt, &mut pass.seat, cell, ticket, actor, maker)
    }

    /// Draws a ticket for a cell, and returns it, unless none is left.
    #[inline(always)]
    fn draw<R: Wait>(&self, rt: &R, seat: &mut PassSeat<O, I>, cell: usize) -> Option<u64>
        requires table { (seat.old.table_id ≡ self.now) × (cell < seat.old.table_id.slots) }
        requires idle { IsIdle seat.old.me.0 }
        ensures same { (seat.new.table_id ≡ seat.old.table_id) × (seat.new.id ≡ seat.old.id) }
        ensures ticket { MatchOption result (seat.new.me ≡ seat.old.me)
            (λ n. (seat.new.me ≡ with_ticket cell n seat.old.me) × (n < highest_ticket)) }
    {
        match self.draw_at_once(seat, cell) {
            Some(ticket) => Some(ticket),
            None => self.draw_in_a_crowd(rt, seat, cell),
        }
    }

    /// Draws a ticket, if few are out and nobody else draws one meanwhile.
    #[inline(always)]
    fn draw_at_once(&self, seat: &mut PassSeat<O, I>, cell: usize) -> Option<u64>
        requires table { (seat.old.table_id ≡ self.now) × (cell < seat.old.table_id.slots) }
        requires idle { IsIdle seat.old.me.0 }
        ensures same { (seat.new.table_id ≡ seat.old.table_id) × (seat.new.id ≡ seat.old.id) }
        ensures ticket { MatchOption result (seat.new.me ≡ seat.old.me)
            (λ n. (seat.new.me ≡ with_ticket cell n seat.old.me) × (n < highest_ticket)) }
    {
        let (next, is_crowded) = self.look(cell);
        if is_crowded || next == u64::MAX {
            return None;
        }
        let shared = &self.table.shared;
        let found = shared.compare_exchange::<Draw>(seat, 16 * cell, next, next + 1);
        if found == next { Some(next) } else { None }
    }

    /// Draws a ticket, unless none is left. Stays outside first where many wait. The count is raised only where it is
    /// still what was read, so that it never wraps.
    #[inline(never)]
    fn draw_in_a_crowd<R: Wait>(
        &self,
        rt: &R,
        seat: &mut PassSeat<O, I>,
        cell: usize,
    ) -> Option<u64>
        requires table { (seat.old.table_id ≡ self.now) × (cell < seat.old.table_id.slots) }
        requires idle { IsIdle seat.old.me.0 }
        ensures same { (seat.new.table_id ≡ seat.old.table_id) × (seat.new.id ≡ seat.old.id) }
        ensures ticket { MatchOption result (seat.new.me ≡ seat.old.me)
            (λ n. (seat.new.me ≡ with_ticket cell n seat.old.me) × (n < highest_ticket)) }
    {
        let mut next = self.come_in(rt, seat, cell);
        let shared = &self.table.shared;
        for _ in rt.forever() {
            if next == u64::MAX {
                return None;
            }
            let found = shared.compare_exchange::<Draw>(seat, 16 * cell, next, next + 1);
            if found == next {
                return Some(next);
            }
            next = found;
        }
        unreachable!()
    }

    /// Waits until the ticket is served.
    #[inline(always)]
    fn wait<R: Wait>(&self, rt: &R, seat: &mut PassSeat<O, I>, cell: usize, ticket: u64)
        requires table { (seat.old.table_id ≡ self.now) × (cell < seat.old.table_id.slots) }
        requires ticket { HasTicket cell ticket seat.old.me }
        ensures same { (seat.new.table_id ≡ seat.old.table_id) × (seat.new.id ≡ seat.old.id) }
        ensures served { IsServed seat.old.me seat.new.me }
    {
        let found = self.table.shared.load::<Look>(seat, 16 * cell + 8);
        if found != ticket {
            self.wait_on(rt, seat, cell, ticket);
        }
    }

    /// The same of a ticket that was not served when it was looked: looks a number of times, and parks then.
    #[inline(never)]
    fn wait_on<R: Wait>(&self, rt: &R, seat: &mut PassSeat<O, I>, cell: usize, ticket: u64)
        requires table { (seat.old.table_id ≡ self.now) × (cell < seat.old.table_id.slots) }
        requires ticket { HasTicket cell ticket seat.old.me }
        ensures same { (seat.new.table_id ≡ seat.old.table_id) × (seat.new.id ≡ seat.old.id) }
        ensures served { IsServed seat.old.me seat.new.me }
    {
        let shared = &self.table.shared;
        let bell = self.bell(ticket);
        let mut looks = 0;
        let mut hung = 0;
        for _ in rt.forever() {
            let found = shared.load::<Look>(seat, 16 * cell + 8);
            if found == ticket {
                return;
            }
            if looks < LOOKS {
                looks += 1;
                spin_loop();
            } else if looks == LOOKS {
                // It looks once more before it parks, so that a turn that came meanwhile is not missed.
                hung = self.hang(seat, bell);
                looks = LOOKS + 1;
            } else {
                shared.park(rt, bell, hung);
                looks = LOOKS;
            }
        }
        unreachable!()
    }

    /// Asks the cell that the seat has.
    #[inline(always)]
    fn act<M: AskMaker<O>>(
        &self,
        seat: &mut PassSeat<O, I>,
        cell: usize,
        actor: &mut Pass<'_>,
        maker: &M,
    ) -> Result<Entry<O::Ask, O::Reply>, NoMemory>
        requires table { seat.old.table_id ≡ self.now }
        requires has_cell { (k : CellState O O.Ask O.Reply) × (seat.old.me.1 ≡ (cell, k) ∷ []) }
        requires fits { (state : O) → M.finds maker.now state
            → O.fits I.image state (M.makes maker.now state) }
        ensures same { (seat.new.table_id ≡ seat.old.table_id) × (seat.new.id ≡ seat.old.id)
            × (seat.new.me.0 ≡ seat.old.me.0) }
        ensures ok { IfOk result (λ e.
            IsCellAsked O.reply O.next
            (IsKeptCell (O.fits I.image) O.reply O.next (O.opening I.image))
            (M.makes maker.now) (M.finds maker.now) cell actor.old e seat.old.me seat.new.me) }
        ensures actor { IfOk result (λ e. actor.new ≡ pass_after actor.old e) }
        ensures err { OnErr result (seat.new.me ≡ seat.old.me) }
        ensures err_actor { OnErr result (actor.new ≡ actor.old) }
    {
        let inside = seat.slot_mut(&self.table.shared, cell);
        let ask = maker.ask(inside.state());
        let entry = inside.enter(actor, ask)?;
        // The state is read here, so that its history, which has the entry, is known to be legal.
        let _ = inside.state();
        Ok(entry)
    }

    /// Returns the cell and serves the next ticket. Who waits for it is woken.
    #[inline(always)]
    fn pass_on(&self, seat: &mut PassSeat<O, I>, cell: usize, ticket: u64)
        requires table { (seat.old.table_id ≡ self.now) × (cell < seat.old.table_id.slots) }
        requires turn { (k : CellState O O.Ask O.Reply) × (x : Option (AnEntry O.Ask O.Reply))
            × HoldsCell cell ticket k x seat.old.me }
        ensures same { (seat.new.table_id ≡ seat.old.table_id) × (seat.new.id ≡ seat.old.id) }
        ensures visit { (k : CellState O O.Ask O.Reply) (x : Option (AnEntry O.Ask O.Reply))
            → HoldsCell cell ticket k x seat.old.me → HasPassedOn cell x seat.old.me seat.new.me }
    {
        let shared = &self.table.shared;
        shared.store::<PassOn>(seat, 16 * cell + 8, ticket + 1);
        self.call_next(seat, cell, ticket + 1);
    }

    /// Waits until the ticket is served, asks the cell, and passes the turn on.
    #[inline(always)]
    fn take_turn<R: Wait, M: AskMaker<O>>(
        &self,
        rt: &R,
        seat: &mut PassSeat<O, I>,
        cell: usize,
        ticket: u64,
        actor: &mut Pass<'_>,
        maker: &M,
    ) -> Result<Entry<O::Ask, O::Reply>, NoMemory>
        requires table { (seat.old.table_id ≡ self.now) × (cell < seat.old.table_id.slots) }
        requires ticket { HasTicket cell ticket seat.old.me }
        requires fits { (state : O) → M.finds maker.now state
            → O.fits I.image state (M.makes maker.now state) }
        ensures same { (seat.new.table_id ≡ seat.old.table_id) × (seat.new.id ≡ seat.old.id) }
        ensures idle { (seat.new.me.1 ≡ []) × IsIdle seat.new.me.0
            × (seat.new.me.0.unjoined ≡ seat.old.me.0.unjoined) }
        ensures visit { IfOk result (λ e. IsVisit cell (Some e) seat.old.me.0 seat.new.me.0) }
        ensures entry { IfOk result (λ e.
            IsNewEntry O.reply O.next (IsKeptCell (O.fits I.image) O.reply O.next (O.opening I.image))
            (M.makes maker.now) (M.finds maker.now) cell actor.old e seat.new.me.0) }
        ensures actor { IfOk result (λ e. actor.new ≡ pass_after actor.old e) }
        ensures err { OnErr result (IsVisit cell None seat.old.me.0 seat.new.me.0) }
        ensures err_actor { OnErr result (actor.new ≡ actor.old) }
    {
        self.wait(rt, seat, cell, ticket);
        let entry = self.act(seat, cell, actor, maker);
        self.pass_on(seat, cell, ticket);
        entry
    }
}
