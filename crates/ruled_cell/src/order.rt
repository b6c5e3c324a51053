//! The rule of the table of the cells, and what each step on it does.
//!
//! Word 16 c counts the tickets of the cell c that were drawn, and word 16 c + 8 those that were served, so that
//! no two of these words share a cache line. Slot c holds the cell. There are 528 words more. The rule says nothing of
//! the odd ones: threads park on these.

use crate::passes::PassView;
use atomic_table::{Join, Play, Split, Table, TableRule};
use journal_cell::{GhostJournaled, RunOf};
use std::alloc::Global;
use wedge_events::Object;

/// The rule that tickets of a cell are served one after another, in the order in which they were drawn.
pub(crate) struct TicketOrder;

impl<O: Object, I: RunOf> TableRule<GhostJournaled<O, I>, PassView<O::Ask, O::Reply>, ()>
    for TicketOrder {
    ghost use Rattle.ruled_cell.specs.Order.{IsTicketOrder};
    ghost use Rattle.ruled_cell.specs.Passes.{first_view};

    ghost holds = { λ _. IsTicketOrder };

    ghost first = { λ _. first_view };
}

/// The table of the cells.
pub(crate) type CellTable<O: Object, I: RunOf> = Table<
    GhostJournaled<O, I>,
    PassView<O::Ask, O::Reply>,
    (),
    TicketOrder,
    Global,
>;

/// Draws a ticket, where none was drawn since the count was read.
pub(crate) struct Draw;

impl<O: Object, I: RunOf> Play<GhostJournaled<O, I>, PassView<O::Ask, O::Reply>> for Draw {
    ghost use Rattle.ruled_cell.specs.Order.{DrawsTicket};

    ghost then = { DrawsTicket };
}

/// Looks which ticket is served, and has the cell where it is its own.
pub(crate) struct Look;

impl<O: Object, I: RunOf> Play<GhostJournaled<O, I>, PassView<O::Ask, O::Reply>> for Look {
    ghost use Rattle.ruled_cell.specs.Order.{LooksAtServing};

    ghost then = { LooksAtServing };
}

/// Returns the cell, and serves the next ticket.
pub(crate) struct PassOn;

impl<O: Object, I: RunOf> Play<GhostJournaled<O, I>, PassView<O::Ask, O::Reply>> for PassOn {
    ghost use Rattle.ruled_cell.specs.Order.{PassesOn};

    ghost then = { PassesOn };
}

/// Changes a word of which the rule says nothing.
pub(crate) struct Ring;

impl<O: Object, I: RunOf> Play<GhostJournaled<O, I>, PassView<O::Ask, O::Reply>> for Ring {
    ghost use Rattle.ruled_cell.specs.Order.{LeavesSeat};

    ghost then = { LeavesSeat };
}

/// Learns the number of its own seat.
pub(crate) struct LearnNumber;

impl<O: Object, I: RunOf> Play<GhostJournaled<O, I>, PassView<O::Ask, O::Reply>> for LearnNumber {
    ghost use Rattle.ruled_cell.specs.Order.{LearnsNumber};

    ghost then = { LearnsNumber };
}

/// Splits a pass in two.
pub(crate) struct SplitPass;

impl<Q, R> Split<PassView<Q, R>> for SplitPass {
    ghost use Rattle.ruled_cell.specs.Passes.{after_splitting};
    ghost use Rattle.ruled_cell.specs.Order.{unnumbered_child};

    ghost left = { after_splitting };

    ghost right = { unnumbered_child };
}

/// Joins a pass to the one from which it was split.
pub(crate) struct JoinPass;

impl<Q, R> Join<PassView<Q, R>> for JoinPass {
    ghost use Rattle.ruled_cell.specs.Passes.{after_joining};
    ghost use Rattle.ruled_cell.specs.Order.{spent_view};

    ghost both = { after_joining };

    ghost spent = { spent_view };
}
