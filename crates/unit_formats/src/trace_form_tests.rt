//! Traces that were written by hand.

use std::alloc::Global;
use std::test::Fail;
use trace_form::{
    Kind, Mode, Record, Records, TraceFault, Why, write_end, write_first_line, write_record,
};
use wedge_base::NoMemory;

/// The trace of a server that signs what it reads, with a worker for each request.
const SERVER: &[u8] = b"wedge-trace 1
read shared main main fd:in
store shared main main tag:req
load shared worker worker tag:req
call shared worker worker gate:sign
load shared sign sign tag:key
store shared worker worker tag:req
append shared worker worker;emit fd:log
read shared main main fd:in
store shared main main tag:req
load shared worker worker tag:req
call shared worker worker gate:sign
load shared sign sign tag:key
store shared worker worker tag:req
append shared worker worker;emit fd:log
read shared main main fd:in
end 15
";

fn fault_of(bytes: &[u8]) -> Option<TraceFault> {
    match Records::new(bytes) {
        Ok(_) => None,
        Err(fault) => Some(fault),
    }
}

/// Adds the frames of a record.
fn add_frames(frames: &mut Vec<u8>, row: &Record<'_>) -> Result<(), NoMemory> {
    for frame in row.frames() {
        frames.extend_from_slice(frame)?;
        frames.push(b' ')?;
    }
    Ok(())
}

/// The trace of the server, written from its records.
fn written_again(alloc: Global) -> Result<Vec<u8>, NoMemory> {
    let mut out = Vec::new(alloc);
    write_first_line(&mut out)?;
    for row in Records::of_trace(SERVER) {
        write_record(&row, &mut out)?;
    }
    write_end(15, &mut out)?;
    Ok(out)
}

/// The frames of the records of the server.
fn server_frames(alloc: Global) -> Result<Vec<u8>, NoMemory> {
    let mut frames = Vec::new(alloc);
    for row in Records::of_trace(SERVER) {
        add_frames(&mut frames, &row)?;
    }
    Ok(frames)
}

#[test]
fn the_trace_of_a_server_is_read_and_written_again(rt: HostRuntime) -> Result<(), Fail> {
    assert!(rt; fault_of(SERVER) == None);
    let out = written_again(rt.alloc())?;
    assert!(rt; out.as_slice() == SERVER);
    let frames = server_frames(rt.alloc())?;
    let want = b"main main worker worker sign worker worker emit \
                 main main worker worker sign worker worker emit main ";
    assert!(rt; frames.as_slice() == want.as_slice());
    Ok(())
}

#[test]
fn the_fields_of_a_record(rt: HostRuntime) -> Result<(), Fail> {
    let text = b"wedge-trace 1\nstore private a.b _x;y made:kid@0001ff00\nend 1\n";
    let mut rows = match Records::new(text) {
        Ok(rows) => rows,
        Err(_) => return Err(Fail::new("a sound trace is rejected")),
    };
    let row: Record<'_> = match rows.next() {
        Some(row) => row,
        None => return Err(Fail::new("no record")),
    };
    assert!(rt; row.kind == Kind::Store);
    assert!(rt; row.mode == Mode::Private);
    assert!(rt; row.comp == b"a.b".as_slice());
    assert!(rt; row.chain == b"_x;y".as_slice());
    assert!(rt; row.item == b"made:kid@0001ff00".as_slice());
    assert!(rt; rows.next().is_none() == true);
    Ok(())
}

#[rattlefmt::skip]
static CAUSES: [(Why, &str); 5] = [
    (Why::Line, "line"),
    (Why::Name, "name"),
    (Why::Number, "number"),
    (Why::End, "end"),
    (Why::Limit, "limit"),
];

#[test]
fn the_words_of_the_causes(rt: HostRuntime) {
    for (why, word) in &CAUSES {
        assert!(rt; why.word() == *word);
    }
}
