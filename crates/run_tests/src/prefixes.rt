//! Each proper prefix of a file.

use super::harness::{ROOM, built, call, is_left};
use std::alloc::{AllocError, Global};
use std::test::Fail;

/// The trace of a server that signs what it reads, with a worker for each request.
pub(crate) static SERVER: &[u8] = b"wedge-trace 1
read shared main main fd:in
store shared main main tag:req
load shared worker worker tag:req
call shared worker worker gate:sign
load shared sign sign tag:key
store shared worker worker tag:req
append shared worker worker;emit fd:log
read shared main main fd:in
store shared main main tag:req
load shared worker worker tag:req
call shared worker worker gate:sign
load shared sign sign tag:key
store shared worker worker tag:req
append shared worker worker;emit fd:log
read shared main main fd:in
end 15
";

#[test]
fn each_proper_prefix_of_a_trace_is_rejected(rt: HostRuntime) -> Result<(), Fail> {
    for n in 0..SERVER.len() {
        let left = call(&rt, rt.alloc(), &["derive", "a"], &SERVER[..n], b"", 1000)?;
        let is_refused = left.err.starts_with(b"wedge: trace refused at ");
        assert!(rt;
            left.status == 8 && left.out.is_empty() && is_refused,
            "{n}"
        );
    }
    Ok(())
}

/// A child that stores a word, and is joined.
static CHILD: &str = "fuel = 1000
user = 0
root = \"/\"
entry = \"main\"
text = \"\"\"
.proc main
svc sc_new
li a1, tag_box
li a2, 3
svc sc_mem_add
la a1, kid
li a2, 0
li a3, 100
svc sthread_create
svc sthread_join
li a0, 0
svc exit
.proc kid
li t0, seg_box
sw t0, 0(t0)
li a0, 0
svc exit
\"\"\"
[[tag]]
name = \"box\"
pages = 1
right = \"ReadWrite\"
";

/// Returns what is said of a prefix of a schedule: at its last line where that has no end, else at the line that is missing.
fn refusal_of(alloc: Global, prefix: &[u8]) -> Result<String, AllocError> {
    let at = prefix.iter().filter(|byte| **byte == b'\n').count();
    let is_whole = matches!(prefix.last(), None | Some(b'\n'));
    let why = if is_whole { "short" } else { "form" };
    format!(in alloc;
        "wedge: schedule refused at {}: {why}\n",
        at.saturating_add(1)
    )
}

#[test]
fn each_proper_prefix_of_a_schedule_is_rejected(rt: HostRuntime) -> Result<(), Fail> {
    let alloc = rt.alloc();
    let image = built(&rt, alloc, CHILD)?;
    let ran = call(
        &rt,
        alloc,
        &["run", "a", "--schedule"],
        image.as_slice(),
        b"",
        ROOM,
    )?;
    assert_eq!(rt; ran.status, 0);
    for n in 0..ran.out.len() {
        let prefix = &ran.out[..n];
        let left = call(
            &rt,
            alloc,
            &["replay", "a", "s"],
            image.as_slice(),
            prefix,
            ROOM,
        )?;
        let said = refusal_of(alloc, prefix)?;
        assert!(rt; is_left(&left, 8, b"", said.as_bytes()), "{n}");
    }
    Ok(())
}
