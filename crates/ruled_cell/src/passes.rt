//! Passes: with what a thread comes to the cells.

ghost use Rattle.std.specs.Prelude.{◌≡◌};

use crate::visits::{OwnVisit, Visit};
use atomic_table::Seat;
use journal_cell::{GhostJournaled, RunOf};
use std::collections::LinkedList;
use std::marker::Model;
use wedge_events::Object;

/// Says where a pass comes from.
pub enum PassOrigin {
    /// It is joined to the pass from which it was split.
    Spent,
    /// It was returned with the cells.
    First,
    /// It was split from the pass of this number.
    SplitFrom(u64),
}

/// Says whether a pass has a ticket, and whether it is its turn.
pub enum PassTurn {
    /// It has no ticket.
    Idle,
    /// It has a ticket, and has not seen that it is served.
    Waiting,
    /// Its ticket is served, and it has the cell.
    Holding,
}

/// Says what a pass knows. No value of it is made: it is for proofs alone.
pub struct PassView<Q, R> {
    pub origin: PassOrigin,
    /// Whether the pass knows its number, as it does once the call that made it has returned.
    pub is_numbered: bool,
    pub number: u64,
    /// The numbers of the passes that were joined to it, and to those. A clause reads an array as a list of any
    /// length.
    pub joined: [u64; 0],
    /// The visits of all passes, at all cells, up to where it last looked, the oldest first.
    pub seen: LinkedList<Visit<Q, R>>,
    /// What it entered, and what those entered that were joined to it, as its visits and joins came.
    pub own: LinkedList<OwnVisit<Q, R>>,
    pub turn: PassTurn,
    /// The cell and its ticket there; 0 and 0 where it is idle.
    pub cell: u64,
    pub ticket: u64,
    /// How many passes were split from it and not joined to it.
    pub unjoined: u64,
}

/// A seat at the table of the cells.
pub(crate) type PassSeat<O: Object, I: RunOf> = Seat<
    GhostJournaled<O, I>,
    PassView<O::Ask, O::Reply>,
>;

/// Knows what a thread has seen of the cells of a table, and what it entered there: with it the thread comes to the
/// cells. At run time it is one count, and has no other bytes.
#[derive(Drop)]
pub struct RuledPass<O: Object, I: RunOf> {
    pub(crate) seat: PassSeat<O, I>,
    pub(crate) unjoined: u64,
}

impl<O: Object, I: RunOf> Model for RuledPass<O, I> {
    ghost use Rattle.std.specs.Prelude.{◌≡◌, []};
    ghost use Rattle.ruled_cell.specs.Passes.{PassState, IsIdle};

    ghost Value = { PassState O.Ask O.Reply };

    ghost view = { λ p. record { table = p.seat.table_id; view = p.seat.me.0 } };

    ghost invariant = { λ p.
        (p.seat.me.1 ≡ []) × IsIdle p.seat.me.0 × (p.unjoined ≡ p.seat.me.0.unjoined) };
}

impl<O: Object, I: RunOf> RuledPass<O, I> {
    /// Returns how many passes were split from it and not joined to it.
    pub fn unjoined(&self) -> u64
        ensures { result ≡ self.now.view.unjoined }
    {
        self.unjoined
    }
}
