//! Every order of turns, up to some length, of actors that share something.

use super::harness::{built, call};
use super::parts::HANDSHAKE;
use std::alloc::Global;
use std::process::Abort;
use std::str;
use std::sync::Wait;
use std::test::Fail;
use std::thread::Threads;

/// A child has a copy of the tag, in which the root stores 9 after the start; it reads the copy, and writes 5 into it.
pub(crate) static COPIED: &str = "fuel = 1000
user = 0
root = \"/\"
entry = \"main\"
text = \"\"\"
.proc main
svc sc_new
li a1, tag_box
li a2, 1
svc sc_mem_add
la a1, kid
li a2, 0
li a3, 100
svc sthread_create
mv s0, a0
li t0, seg_box
li t1, 9
sw t1, 0(t0)
mv a0, s0
svc sthread_join
svc exit
.proc kid
li t0, seg_box
lw s0, 0(t0)
li t1, 5
sw t1, 0(t0)
lw a0, 0(t0)
slli s0, s0, 4
add a0, a0, s0
svc exit
\"\"\"
[[tag]]
name = \"box\"
pages = 1
right = \"ReadWrite\"
hex = \"03000000\"
[[fd]]
name = \"out\"
kind = \"append\"
bits = \"append\"
";

/// What each of its runs prints.
static COPIED_REPORT: &str = "actor 0 main exited 53 pc 00010054 fuel 968\n\
    actor 0.1 kid exited 53 pc 0001007c fuel 90\n\
    stream 0 out \"\"\n\
    ";

/// A complete schedule and its report.
#[derive(Drop)]
struct Complete {
    pub schedule: String,
    pub report: Vec<u8>,
}

/// The schedules of some length: those that go on, and those that are complete.
#[derive(Drop)]
struct Schedules {
    pub alloc: Global,
    pub open: Vec<String>,
    pub complete: Vec<Complete>,
}

impl Schedules {
    /// None.
    fn new(alloc: Global) -> Schedules {
        Schedules {
            alloc,
            open: Vec::new(alloc),
            complete: Vec::new(alloc),
        }
    }

    /// The empty schedule, which goes on.
    fn empty(alloc: Global) -> Result<Schedules, Fail> {
        let mut schedules = Schedules::new(alloc);
        schedules.open.push(String::new(alloc))?;
        Ok(schedules)
    }
}

/// How many turns beyond three an actor takes in a schedule.
fn turns_beyond_three(schedule: &str, name: &str) -> usize {
    schedule
        .as_bytes()
        .split(|byte| *byte == b'\n')
        .filter(|line| *line == name.as_bytes())
        .count()
        .saturating_sub(3)
}

/// The report of a complete schedule: each child has 12 instructions, and two more for each turn beyond three, in which it
/// looks again.
fn report_of(alloc: Global, schedule: &str) -> Result<String, Fail> {
    let again_1 = turns_beyond_three(schedule, "0.1").saturating_mul(2);
    let again_2 = turns_beyond_three(schedule, "0.2").saturating_mul(2);
    Ok(format!(in alloc;
        "actor 0 main exited 0 pc 00010074 fuel {}\n\
        actor 0.1 kid exited 0 pc 000100a4 fuel {}\n\
        actor 0.2 kid exited 0 pc 000100a4 fuel {}\n\
        stream 0 out \"\"\n",
        2_999_946usize
            .saturating_sub(again_1)
            .saturating_sub(again_2),
        999_988usize.saturating_sub(again_1),
        999_988usize.saturating_sub(again_2)
    )?)
}

/// What a replay of a schedule shows: that it is complete, with its report; that it goes on; or that its last turn is none.
#[derive(Drop)]
enum Replayed {
    Complete(Vec<u8>),
    Open,
    Refused,
}

/// The line at which a schedule is refused, and why.
fn refusal_in(err: &[u8]) -> Result<(usize, &str), Fail> {
    let said = str::from_utf8(err)?.strip_prefix("wedge: schedule refused at ");
    let parts = said.ok_or("a schedule that is refused")?.split_once(": ");
    let (at, why) = parts.ok_or("a line and a reason")?;
    let at = at.parse::<usize>().map_err(|_| "a line")?;
    Ok((at, why))
}

/// What a schedule of this length that is refused shows: one that is too short is refused behind its last line, any other at it.
fn refused(err: &[u8], length: usize) -> Result<Replayed, Fail> {
    let (at, why) = refusal_in(err)?;
    let is_short = why == "short\n";
    if is_short && at == length.saturating_add(1) {
        Ok(Replayed::Open)
    } else if !is_short && why != "extra\n" && at == length {
        Ok(Replayed::Refused)
    } else {
        Err("a schedule refused at another line".into())
    }
}

/// Replays a schedule of this length.
fn replay_of<R: Threads + Wait + Sync>(
    rt: &R,
    alloc: Global,
    image: &[u8],
    schedule: &str,
    length: usize,
) -> Result<Replayed, Fail> {
    let left = call(
        rt,
        alloc,
        &["replay", "a", "s"],
        image,
        schedule.as_bytes(),
        1000,
    )?;
    match left.status {
        0 => Ok(Replayed::Complete(left.out)),
        8 => refused(left.err.as_slice(), length),
        _ => Err("another status".into()),
    }
}

/// How many schedules of a length go on, and how many are complete.
struct Counted {
    pub length: usize,
    pub open: usize,
    pub complete: usize,
}

/// Adds each schedule of one turn more than a prefix, by one of these actors, where it goes on or is complete.
fn add_longer<R: Threads + Wait + Sync>(
    rt: &R,
    image: &[u8],
    names: &[&str],
    prefix: &str,
    length: usize,
    schedules: &mut Schedules,
) -> Result<(), Fail> {
    let alloc = schedules.alloc;
    for name in names {
        let schedule = format!(in alloc; "{prefix}{name}\n")?;
        match replay_of(rt, alloc, image, schedule.as_str(), length)? {
            Replayed::Complete(report) => schedules.complete.push(Complete { schedule, report })?,
            Replayed::Open => schedules.open.push(schedule)?,
            Replayed::Refused => {}
        }
    }
    Ok(())
}

/// Every schedule of one turn more, by one of these actors, of those that go on: as many as were counted of that length.
fn longer<R: Threads + Wait + Sync + Abort>(
    rt: &R,
    image: &[u8],
    names: &[&str],
    shorter: &Schedules,
    counted: &Counted,
) -> Result<Schedules, Fail> {
    let mut schedules = Schedules::new(shorter.alloc);
    for prefix in &shorter.open {
        add_longer(
            rt,
            image,
            names,
            prefix.as_str(),
            counted.length,
            &mut schedules,
        )?;
    }
    assert!(rt;
        schedules.open.len() == counted.open,
        "of {}",
        counted.length
    );
    assert!(rt;
        schedules.complete.len() == counted.complete,
        "of {}",
        counted.length
    );
    Ok(schedules)
}

/// Counted by a model of the three programs apart from the machine.
#[rattlefmt::skip]
static ORDERS: [Counted; 16] = [
    Counted { length: 1, open: 1, complete: 0 },
    Counted { length: 2, open: 1, complete: 0 },
    Counted { length: 3, open: 2, complete: 0 },
    Counted { length: 4, open: 4, complete: 0 },
    Counted { length: 5, open: 8, complete: 0 },
    Counted { length: 6, open: 16, complete: 0 },
    Counted { length: 7, open: 32, complete: 0 },
    Counted { length: 8, open: 64, complete: 0 },
    Counted { length: 9, open: 124, complete: 0 },
    Counted { length: 10, open: 225, complete: 0 },
    Counted { length: 11, open: 371, complete: 0 },
    Counted { length: 12, open: 572, complete: 0 },
    Counted { length: 13, open: 798, complete: 40 },
    Counted { length: 14, open: 1069, complete: 70 },
    Counted { length: 15, open: 1385, complete: 110 },
    Counted { length: 16, open: 1746, complete: 160 },
];

/// Each complete schedule has the report that is computed of it.
fn have_their_reports(rt: &impl Abort, schedules: &Schedules) -> Result<(), Fail> {
    for complete in &schedules.complete {
        let wanted = report_of(schedules.alloc, complete.schedule.as_str())?;
        assert!(rt; complete.report.as_slice() == wanted.as_bytes());
    }
    Ok(())
}

#[test]
fn every_order_of_a_handshake(rt: HostRuntime) -> Result<(), Fail> {
    let image = built(&rt, rt.alloc(), HANDSHAKE)?;
    let mut schedules = Schedules::empty(rt.alloc())?;
    for counted in &ORDERS {
        let names = ["0", "0.1", "0.2"];
        schedules = longer(&rt, image.as_slice(), &names, &schedules, counted)?;
        have_their_reports(&rt, &schedules)?;
    }
    Ok(())
}

/// The claim of a life, the copy, the start, the root's store and the child's end in either order, the join and the root's end.
#[rattlefmt::skip]
static COPIED_ORDERS: [Counted; 7] = [
    Counted { length: 1, open: 1, complete: 0 },
    Counted { length: 2, open: 1, complete: 0 },
    Counted { length: 3, open: 1, complete: 0 },
    Counted { length: 4, open: 2, complete: 0 },
    Counted { length: 5, open: 2, complete: 0 },
    Counted { length: 6, open: 2, complete: 0 },
    Counted { length: 7, open: 0, complete: 2 },
];

/// Each complete schedule has the same report.
fn have_one_report(rt: &impl Abort, schedules: &Schedules) {
    for complete in &schedules.complete {
        assert!(rt; complete.report.as_slice() == COPIED_REPORT.as_bytes());
    }
}

#[test]
fn a_copy_is_the_same_in_every_interleaving(rt: HostRuntime) -> Result<(), Fail> {
    let image = built(&rt, rt.alloc(), COPIED)?;
    let mut schedules = Schedules::empty(rt.alloc())?;
    for counted in &COPIED_ORDERS {
        let names = ["0", "0.1"];
        schedules = longer(&rt, image.as_slice(), &names, &schedules, counted)?;
        have_one_report(&rt, &schedules);
    }
    Ok(())
}
