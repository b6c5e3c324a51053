//! The note of an event.

ghost use Rattle.std.specs.Prelude.{◌≡◌, IfOk, OnOk, OnErr};
ghost use Rattle.run_notes.specs.Notes as notes;

use crate::chain::CallChain;
use crate::context::Context;
use crate::doer::Doer;
use crate::items::NoteItem;
use crate::note::Note;
use trace_form::{Kind, Mode};
use wedge_base::{FdNo, NoMemory};
use wedge_events::{Event, GateAsk, GateReply, Live, SlotAsk, SlotReply, StreamAsk, StreamReply};

/// Notes the event of an actor that was at rest, under its chain: what was loaded, stored, read or appended, and the gate
/// that was entered.
pub fn note_event(
    context: &Context<'_, '_>,
    doer: &Doer,
    chain: &CallChain,
    list: &mut Vec<Note>,
    event: &Event,
) -> Result<(), NoMemory>
    ensures ok { OnOk result (list.new.items ≡ notes.with_note list.old.items
        (notes.event_note context.now.program.now context.now.makings.now doer.now chain.now
        event.now)) }
    ensures err { OnErr result (list.new.items ≡ list.old.items) }
{
    match event {
        Event::Slot { ask, reply, .. } => note_slot(context, doer, chain, list, ask, reply),
        Event::Fd { fd, ask, reply } => note_stream(context, doer, chain, list, *fd, ask, reply),
        Event::Enter { .. } => note_entry(doer, chain, list),
        Event::Gate { ask, reply, .. } => note_gate(doer, chain, list, ask, reply),
        _ => Ok(()),
    }
}

/// Notes what a slot gave or took.
fn note_slot(
    context: &Context<'_, '_>,
    doer: &Doer,
    chain: &CallChain,
    list: &mut Vec<Note>,
    ask: &SlotAsk,
    reply: &SlotReply,
) -> Result<(), NoMemory>
    ensures ok { OnOk result (list.new.items ≡ notes.with_note list.old.items
        (notes.slot_note context.now.program.now context.now.makings.now doer.now chain.now ask.now
        reply.now)) }
    ensures err { OnErr result (list.new.items ≡ list.old.items) }
{
    match (ask, reply) {
        (SlotAsk::Load { live, .. }, SlotReply::Loaded { .. }) => {
            note_tag(context, doer, chain, list, Kind::Load, *live)
        }
        (SlotAsk::Store { live, .. }, SlotReply::Stored) => {
            note_tag(context, doer, chain, list, Kind::Store, *live)
        }
        _ => Ok(()),
    }
}

/// Notes an access to the tag that lives in a slot.
fn note_tag(
    context: &Context<'_, '_>,
    doer: &Doer,
    chain: &CallChain,
    list: &mut Vec<Note>,
    kind: Kind,
    live: Option<Live>,
) -> Result<(), NoMemory>
    ensures ok { OnOk result (list.new.items ≡ notes.with_note list.old.items
        (notes.tag_note context.now.program.now context.now.makings.now doer.now chain.now kind
        live)) }
    ensures err { OnErr result (list.new.items ≡ list.old.items) }
{
    match live {
        None => Ok(()),
        Some(living) => {
            let item = context
                .makings
                .tag_item(context.program.image(), living.tag);
            Ok(list.push(shared_note(doer, chain, kind, item)?)?)
        }
    }
}

/// Notes what a stream gave or took.
fn note_stream(
    context: &Context<'_, '_>,
    doer: &Doer,
    chain: &CallChain,
    list: &mut Vec<Note>,
    fd: FdNo,
    ask: &StreamAsk,
    reply: &StreamReply,
) -> Result<(), NoMemory>
    ensures ok { OnOk result (list.new.items ≡ notes.with_note list.old.items
        (notes.stream_note context.now.program.now context.now.makings.now doer.now chain.now fd
        ask.now reply.now)) }
    ensures err { OnErr result (list.new.items ≡ list.old.items) }
{
    let kind = match (ask, reply) {
        (StreamAsk::Read { .. }, StreamReply::Given { .. }) => Kind::Read,
        (StreamAsk::Append { .. }, StreamReply::Appended) => Kind::Append,
        _ => return Ok(()),
    };
    let item = context.makings.fd_item(context.program.image(), fd)?;
    Ok(list.push(shared_note(doer, chain, kind, item)?)?)
}

/// Notes what a recycled gate replied.
fn note_gate(
    doer: &Doer,
    chain: &CallChain,
    list: &mut Vec<Note>,
    ask: &GateAsk,
    reply: &GateReply,
) -> Result<(), NoMemory>
    ensures ok { OnOk result (list.new.items ≡ notes.with_note list.old.items
        (notes.gate_note doer.now chain.now ask.now reply.now)) }
    ensures err { OnErr result (list.new.items ≡ list.old.items) }
{
    match (ask, reply) {
        (GateAsk::Enter { .. }, GateReply::Entered { .. }) => note_entry(doer, chain, list),
        _ => Ok(()),
    }
}

/// Notes the entry of a gate.
fn note_entry(doer: &Doer, chain: &CallChain, list: &mut Vec<Note>) -> Result<(), NoMemory>
    ensures ok { OnOk result (list.new.items ≡ notes.with_note list.old.items
        (notes.entry_note doer.now chain.now doer.now.entry)) }
    ensures err { OnErr result (list.new.items ≡ list.old.items) }
{
    match doer.entry {
        Some(entry) => {
            let item = NoteItem::Gate { entry };
            Ok(list.push(shared_note(doer, chain, Kind::Call, item)?)?)
        }
        None => Ok(()),
    }
}

/// The note of an access to what is shared.
fn shared_note(doer: &Doer, chain: &CallChain, kind: Kind, item: NoteItem) -> Result<Note, NoMemory>
    ensures { IfOk result (λ n. n ≡ notes.note_by doer.now chain.now kind Mode.Shared item) }
{
    Ok(Note {
        actor: doer.name.copy()?,
        pc: doer.pc,
        kind,
        mode: Mode::Shared,
        compartment: doer.compartment,
        chain: chain.frames.copy()?,
        item,
    })
}
