//! Where threads park, and how they are woken: on words of which the rule says nothing.

ghost use Rattle.std.specs.Prelude.{◌≡◌, ◌<◌};
ghost use Rattle.ruled_cell.specs.Enter.{IsOdd};

use crate::cells::RuledCells;
use crate::order::Ring;
use crate::passes::PassSeat;
use journal_cell::RunOf;
use std::sync::Wait;
use wedge_events::Object;

/// How many words those park on who have tickets: each on that of its ticket, so that whoever passes its turn on
/// wakes the one that is next, and hardly any other.
const BELLS: u64 = 256;

/// How many tickets of a cell are out when others stay outside, and draw none: these would only park and be woken one
/// after another.
const CROWD: u64 = 4;

/// After so many turns one of those outside is let in, however many wait.
const TURNS: u64 = 64;

impl<O: Object, I: RunOf> RuledCells<O, I> {
    /// Stays outside while many wait for a cell, until it is let in. Returns how many of its tickets were drawn, as it
    /// looked.
    pub(crate) fn come_in<R: Wait>(&self, rt: &R, seat: &mut PassSeat<O, I>, cell: usize) -> u64
        requires { (seat.old.table_id ≡ self.now) × (cell < seat.old.table_id.slots) }
        ensures same { (seat.new.table_id ≡ seat.old.table_id) × (seat.new.id ≡ seat.old.id) }
        ensures me { seat.new.me ≡ seat.old.me }
    {
        let (drawn, is_crowded) = self.look(cell);
        if is_crowded {
            self.stay_outside(rt, seat, cell);
        }
        drawn
    }

    /// Returns how many tickets of a cell were drawn, and whether many of them are out.
    #[inline(always)]
    pub(crate) fn look(&self, cell: usize) -> (u64, bool)
        requires { cell < self.now.slots }
    {
        let served = self.table.shared.peek(16 * cell + 8);
        let drawn = self.table.shared.peek(16 * cell);
        (drawn, drawn.saturating_sub(served) >= CROWD)
    }

    /// Parks at the door of a cell, unless few wait by then.
    #[inline(never)]
    fn stay_outside<R: Wait>(&self, rt: &R, seat: &mut PassSeat<O, I>, cell: usize)
        requires { (seat.old.table_id ≡ self.now) × (cell < seat.old.table_id.slots) }
        ensures same { (seat.new.table_id ≡ seat.old.table_id) × (seat.new.id ≡ seat.old.id) }
        ensures me { seat.new.me ≡ seat.old.me }
    {
        let count = self.outside(cell);
        let door = self.door(cell);
        self.change(seat, count, 1);
        // The door is read before the tickets are, so that an opening between them is not missed.
        let opened = self.table.shared.peek(door);
        let (_, is_crowded) = self.look(cell);
        if is_crowded {
            self.table
                .shared
                .park(rt, door, (opened % 4294967296) as u32);
        }
        self.change(seat, count, u64::MAX);
    }

    /// Wakes who has the next ticket, if it is parked; and one of those outside, where nobody has a ticket, or their
    /// time has come.
    #[inline(always)]
    pub(crate) fn call_next(&self, seat: &mut PassSeat<O, I>, cell: usize, next: u64)
        requires { (seat.old.table_id ≡ self.now) × (cell < seat.old.table_id.slots) }
        ensures same { (seat.new.table_id ≡ seat.old.table_id) × (seat.new.id ≡ seat.old.id) }
        ensures me { seat.new.me ≡ seat.old.me }
    {
        let drawn = self.table.shared.peek(16 * cell);
        if drawn > next {
            self.ring(seat, next);
        }
        let count = self.outside(cell);
        if self.table.shared.peek(count) != 0 {
            self.let_in(seat, cell, drawn, next);
        }
    }

    /// Opens the door of a cell for one, where nobody has the next ticket, or the time has come.
    #[inline(never)]
    fn let_in(&self, seat: &mut PassSeat<O, I>, cell: usize, drawn: u64, next: u64)
        requires { (seat.old.table_id ≡ self.now) × (cell < seat.old.table_id.slots) }
        ensures same { (seat.new.table_id ≡ seat.old.table_id) × (seat.new.id ≡ seat.old.id) }
        ensures me { seat.new.me ≡ seat.old.me }
    {
        if drawn <= next || next % TURNS == 0 {
            let door = self.door(cell);
            self.change(seat, door, 1);
            self.table.shared.wake_one(door);
        }
    }

    /// Wakes who has a ticket, if it is parked.
    #[inline(never)]
    fn ring(&self, seat: &mut PassSeat<O, I>, ticket: u64)
        requires { seat.old.table_id ≡ self.now }
        ensures same { (seat.new.table_id ≡ seat.old.table_id) × (seat.new.id ≡ seat.old.id) }
        ensures me { seat.new.me ≡ seat.old.me }
    {
        let bell = self.bell(ticket);
        if self.table.shared.peek(bell) % 2 == 1 {
            self.change(seat, bell, 1);
            self.table.shared.wake_all(bell);
        }
    }

    /// Makes a bell odd, which says that somebody parks there, and returns it.
    pub(crate) fn hang(&self, seat: &mut PassSeat<O, I>, bell: usize) -> u32
        requires table { seat.old.table_id ≡ self.now }
        requires below { bell < self.now.words }
        requires odd { IsOdd bell }
        ensures same { (seat.new.table_id ≡ seat.old.table_id) × (seat.new.id ≡ seat.old.id) }
        ensures me { seat.new.me ≡ seat.old.me }
    {
        let was = self.table.shared.fetch_or::<Ring>(seat, bell, 1);
        ((was | 1) % 4294967296) as u32
    }

    /// Adds to a word of which the rule says nothing.
    fn change(&self, seat: &mut PassSeat<O, I>, word: usize, more: u64)
        requires table { seat.old.table_id ≡ self.now }
        requires below { word < self.now.words }
        requires odd { IsOdd word }
        ensures same { (seat.new.table_id ≡ seat.old.table_id) × (seat.new.id ≡ seat.old.id) }
        ensures me { seat.new.me ≡ seat.old.me }
    {
        self.table.shared.fetch_add::<Ring>(seat, word, more);
    }

    /// Returns the word on which who has a ticket parks.
    pub(crate) fn bell(&self, ticket: u64) -> usize
        ensures below { result < self.now.words }
        ensures odd { IsOdd result }
    {
        let bell = (ticket % BELLS) as usize;
        16 * self.count + 17 + 2 * bell
    }

    /// Returns the word that counts those outside of a cell.
    #[inline(always)]
    fn outside(&self, cell: usize) -> usize
        requires { cell < self.now.slots }
        ensures below { result < self.now.words }
        ensures odd { IsOdd result }
    {
        // The count is read here, so that what the cells' type keeps is at hand.
        let _ = self.count == 0;
        16 * cell + 9
    }

    /// Returns the word on which they park.
    #[inline(always)]
    fn door(&self, cell: usize) -> usize
        requires { cell < self.now.slots }
        ensures below { result < self.now.words }
        ensures odd { IsOdd result }
    {
        // The count is read here, so that what the cells' type keeps is at hand.
        let _ = self.count == 0;
        16 * cell + 11
    }
}
