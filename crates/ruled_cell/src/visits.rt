//! What is known of each turn at a cell. No value of these types is made: they are for proofs alone.

use journal_cell::Entry;
use std::collections::LinkedList;

/// Says what a ticket led to: at which cell, by the number of which pass, and the entry that was added, if any.
pub struct Visit<Q, R> {
    pub cell: u64,
    pub pass: u64,
    pub entry: Option<Entry<Q, R>>,
}

/// Says what a pass entered: the visit, and all visits of any pass before it, at any cell, the oldest first.
pub struct OwnVisit<Q, R> {
    pub before: LinkedList<Visit<Q, R>>,
    pub visit: Visit<Q, R>,
}
