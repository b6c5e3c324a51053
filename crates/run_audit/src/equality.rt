//! Whether an entry that a cell kept is one of the journal.

ghost use Rattle.std.specs.Prelude.{◌≡◌, ◌↔◌, true};
ghost use Rattle.run_audit.specs.HistoryEntries.{kept_as};

use crate::kept::KeptEntry;
use wedge_base::{ActorName, GateId, Stamp};
use wedge_events::{
    DirectoryAsk, DirectoryReply, Event, LivesAsk, LivesReply, LogEntry, SlotAsk, SlotReply,
    StreamAsk, StreamReply,
};

/// Tells whether what was asked and replied of a directory is the same.
fn same_directory(
    ask: &DirectoryAsk,
    reply: &DirectoryReply,
    other: &DirectoryAsk,
    others: &DirectoryReply,
) -> bool
    ensures { (result ≡ true) ↔ ((ask.now ≡ other.now) × (reply.now ≡ others.now)) }
{
    ask == other && reply == others
}

fn same_slot_reply(a: &SlotReply, b: &SlotReply) -> bool
    ensures { (result ≡ true) ↔ (a.now ≡ b.now) }
{
    a == b
}

/// Tells whether what was asked and replied of a slot is the same.
fn same_slot(ask: &SlotAsk, reply: &SlotReply, other: &SlotAsk, others: &SlotReply) -> bool
    ensures { (result ≡ true) ↔ ((ask.now ≡ other.now) × (reply.now ≡ others.now)) }
{
    ask == other && same_slot_reply(reply, others)
}

/// Tells whether what was asked and replied of a stream is the same.
fn same_stream(
    ask: &StreamAsk,
    reply: &StreamReply,
    other: &StreamAsk,
    others: &StreamReply,
) -> bool
    ensures { (result ≡ true) ↔ ((ask.now ≡ other.now) × (reply.now ≡ others.now)) }
{
    ask == other && reply == others
}

/// Tells whether what was asked and replied of the count of live sthreads is the same.
fn same_lives(ask: &LivesAsk, reply: &LivesReply, other: &LivesAsk, others: &LivesReply) -> bool
    ensures { (result ≡ true) ↔ ((ask.now ≡ other.now) × (reply.now ≡ others.now)) }
{
    ask == other && reply == others
}

fn same_gate(a: &GateId, b: &GateId) -> bool
    ensures { (result ≡ true) ↔ (a.now ≡ b.now) }
{
    a == b
}

/// Tells whether the stamps and the actors of two entries are the same.
fn same_head(stamp: Stamp, actor: &ActorName, logged: &LogEntry) -> bool
    ensures { (result ≡ true) ↔ ((stamp ≡ logged.now.stamp) × (actor.now ≡ logged.now.actor)) }
{
    stamp == logged.stamp && actor.is_same(&logged.actor)
}

/// Tells whether an entry that a cell kept is this one of the journal.
pub(crate) fn same_entry(kept: &KeptEntry<'_>, logged: &LogEntry) -> bool
    ensures { (result ≡ true) ↔ (kept_as kept.now ≡ logged.now) }
{
    match kept {
        KeptEntry::Slots { entry } => match &logged.event {
            Event::Slots { ask, reply } => same_head(entry.stamp, &entry.actor, logged)
                && same_directory(&entry.ask, &entry.reply, ask, reply),
            _ => false,
        },
        KeptEntry::Slot { slot, entry } => match &logged.event {
            Event::Slot {
                slot: other,
                ask,
                reply,
            } => *slot == *other
                && same_head(entry.stamp, &entry.actor, logged)
                && same_slot(&entry.ask, &entry.reply, ask, reply),
            _ => false,
        },
        KeptEntry::Fds { entry } => match &logged.event {
            Event::Fds { ask, reply } => same_head(entry.stamp, &entry.actor, logged)
                && same_directory(&entry.ask, &entry.reply, ask, reply),
            _ => false,
        },
        KeptEntry::Fd { fd, entry } => match &logged.event {
            Event::Fd {
                fd: other,
                ask,
                reply,
            } => *fd == *other
                && same_head(entry.stamp, &entry.actor, logged)
                && same_stream(&entry.ask, &entry.reply, ask, reply),
            _ => false,
        },
        KeptEntry::Lives { entry } => match &logged.event {
            Event::Lives { ask, reply } => same_head(entry.stamp, &entry.actor, logged)
                && same_lives(&entry.ask, &entry.reply, ask, reply),
            _ => false,
        },
        KeptEntry::Gate { gate, entry } => match &logged.event {
            Event::Gate {
                gate: other,
                ask,
                reply,
            } => same_gate(gate, other)
                && same_head(entry.stamp, &entry.actor, logged)
                && entry.ask.is_same(ask)
                && entry.reply.is_same(reply),
            _ => false,
        },
    }
}
