//! As many actors as there may be.

use super::harness::{built, replays, runs};
use std::alloc::Global;
use std::test::Fail;

/// The root asks for 256 children, the last in vain; then it joins the first, and is answered the number of one more.
static MANY: &str = "fuel = 20000
user = 0
root = \"/\"
entry = \"main\"
text = \"\"\"
.proc main
svc sc_new
li s0, 256
li s1, 0
again:
call start
add s1, s1, a1
addi s0, s0, -1
bnez s0, again
li a0, 1
svc sthread_join
call start
slli a0, a0, 4
add a0, a0, s1
svc exit
start:
li a0, 0
la a1, kid
li a3, 2
svc sthread_create
ret
.proc kid
svc exit
\"\"\"
[[tag]]
name = \"box\"
pages = 1
right = \"none\"
[[fd]]
name = \"out\"
kind = \"append\"
bits = \"append\"
";

/// The children's ends, from the second on.
fn ends(alloc: Global) -> Result<String, Fail> {
    let mut ends = String::new(alloc);
    for k in 2..257u32 {
        ends.push_str(format!(in alloc; "0.{k}\n")?.as_str())?;
    }
    Ok(ends)
}

/// The lines of the report on the children.
fn kids(alloc: Global) -> Result<String, Fail> {
    let mut kids = String::new(alloc);
    for k in 1..257u32 {
        let line = format!(in alloc; "actor 0.{k} kid exited 0 pc 00010060 fuel 0\n")?;
        kids.push_str(line.as_str())?;
    }
    Ok(kids)
}

/// The schedule: the children's starts, the first one's end and its join, the last start, and the others' ends and joins.
fn schedule_of_many(alloc: Global) -> Result<String, Fail> {
    let starts = "0\n".repeat(alloc, 510)?;
    let joins = "0\n".repeat(alloc, 255)?;
    let ends = ends(alloc)?;
    Ok(format!(in alloc; "{starts}0\n0.1\n0\n0\n0\n{ends}{joins}0\n")?)
}

/// The report of that schedule.
fn report_of_many(alloc: Global) -> Result<String, Fail> {
    let kids = kids(alloc)?;
    Ok(format!(in alloc;
        "actor 0 main exited 4098 pc 0001003c fuel 16653\n{kids}stream 0 out \"\"\n"
    )?)
}

#[test]
fn at_most_256_actors_live(rt: HostRuntime) -> Result<(), Fail> {
    let alloc = rt.alloc();
    let image = built(&rt, alloc, MANY)?;
    let schedule = schedule_of_many(alloc)?;
    let report = report_of_many(alloc)?;
    let (schedule, report) = (schedule.as_bytes(), report.as_bytes());
    assert!(rt; replays(&rt, alloc, image.as_slice(), schedule, report)?);
    Ok(())
}

/// 20,000 children one after another.
static ONE_BY_ONE: &str = "fuel = 1000000
user = 0
root = \"/\"
entry = \"main\"
text = \"\"\"
.proc main
svc sc_new
li s0, 20000
again:
li a0, 0
la a1, kid
li a3, 10
svc sthread_create
svc sthread_join
addi s0, s0, -1
bnez s0, again
li a0, 0
svc exit
.proc kid
svc exit
\"\"\"
[[tag]]
name = \"box\"
pages = 1
right = \"none\"
[[fd]]
name = \"out\"
kind = \"append\"
bits = \"append\"
";

/// The schedule: for each child its maker's two turns, its end and the join; then the end.
fn schedule_one_by_one(alloc: Global) -> Result<String, Fail> {
    let mut schedule = String::new(alloc);
    for k in 1..20_001u32 {
        schedule.push_str(format!(in alloc; "0\n0\n0.{k}\n0\n")?.as_str())?;
    }
    schedule.push_str("0\n")?;
    Ok(schedule)
}

/// The report of that schedule.
fn report_one_by_one(alloc: Global) -> Result<String, Fail> {
    let mut report = String::from_str(alloc, "actor 0 main exited 0 pc 00010040 fuel 759993\n")?;
    for k in 1..20_001u32 {
        let line = format!(in alloc; "actor 0.{k} kid exited 0 pc 00010048 fuel 8\n")?;
        report.push_str(line.as_str())?;
    }
    report.push_str("stream 0 out \"\"\n")?;
    Ok(report)
}

#[test]
fn children_one_after_another(rt: HostRuntime) -> Result<(), Fail> {
    let alloc = rt.alloc();
    let image = built(&rt, alloc, ONE_BY_ONE)?;
    let schedule = schedule_one_by_one(alloc)?;
    let report = report_one_by_one(alloc)?;
    let (schedule, report) = (schedule.as_bytes(), report.as_bytes());
    assert!(rt; runs(&rt, alloc, image.as_slice(), schedule, report)?);
    assert!(rt; replays(&rt, alloc, image.as_slice(), schedule, report)?);
    Ok(())
}
