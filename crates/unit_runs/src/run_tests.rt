//! Runs on threads, audited, and compared with runs of the core.

ghost use Rattle.thread_laws.specs.KeptEntries.{AreKept};

use crate::parts::{DECLARED, DEEP, FRESH, HANDSHAKE, OPENED, RECYCLED, REUSED};
use gate_runner::run_image;
use host_io::NoPace;
use image_form::Image;
use part_toml::read_partition;
use report_text::report;
use run_audit::{AuditFault, AuditRefusal, Audited, audit};
use std::alloc::Global;
use std::sync::Wait;
use std::test::Fail;
use std::thread::Threads;
use thread_laws::{ActorLog, Gathered};
use wedge_base::Items;
use wedge_core::serial;
use wedge_events::CellName;

/// Returns the image of a program that begins with so much fuel.
fn image_of(alloc: Global, fuel: u32, text: &str) -> Result<Image, Fail> {
    let head = "entry = \"main\"\nuser = 0\nroot = \"/\"\n";
    let part = format!(in alloc; "fuel = {fuel}\n{head}text = \"\"\"\n{text}\"\"\"\n{DECLARED}")?;
    image_from(alloc, part.as_str())
}

/// Returns the image of a partition.
fn image_from(alloc: Global, part: &str) -> Result<Image, Fail> {
    match read_partition(alloc, part) {
        Ok(image) => Ok(image),
        Err(_) => Err("no image".into()),
    }
}

/// Audits what a run left.
fn audit_of(alloc: Global, image: &Image, gathered: Gathered) -> Result<Audited, AuditRefusal>
    requires { AreKept gathered }
{
    audit(alloc, image, gathered)
}

/// Returns the report of a run on threads.
fn threaded<R: Threads + Wait + Sync>(
    rt: &R,
    alloc: Global,
    image: &Image,
) -> Result<Vec<u8>, Fail> {
    let gathered = run_image(rt, alloc, image, &NoPace, false)?;
    match audit_of(alloc, image, gathered) {
        Ok(audited) => Ok(report(alloc, &audited.outcome)?),
        Err(_) => Err("no audit".into()),
    }
}

/// Returns the report of the core's run.
fn sequential(alloc: Global, image: &Image) -> Result<Vec<u8>, Fail> {
    let (_, outcome) = serial(alloc, image)?;
    Ok(report(alloc, &outcome)?)
}

/// Whether a run on threads has the report of the core's run.
fn is_alike<R: Threads + Wait + Sync>(rt: &R, alloc: Global, image: &Image) -> Result<bool, Fail> {
    let on_threads = threaded(rt, alloc, image)?;
    let alone = sequential(alloc, image)?;
    Ok(on_threads.as_slice() == alone.as_slice())
}

/// Whether it has, of a program that begins with so much fuel.
fn runs_alike<R: Threads + Wait + Sync>(
    rt: &R,
    alloc: Global,
    fuel: u32,
    text: &str,
) -> Result<bool, Fail> {
    let image = image_of(alloc, fuel, text)?;
    is_alike(rt, alloc, &image)
}

/// A file that is opened, by a number from the directory of descriptors.
#[test]
fn file_is_opened(rt: HostRuntime) -> Result<(), Fail> {
    let alloc = rt.alloc();
    let image = image_from(alloc, OPENED)?;
    assert!(&rt; is_alike(&rt, alloc, &image)?);
    Ok(())
}

/// Children that enter a fresh gate.
#[test]
fn children_enter_a_fresh_gate(rt: HostRuntime) -> Result<(), Fail> {
    assert!(&rt; runs_alike(&rt, rt.alloc(), 1000, FRESH)?);
    Ok(())
}

/// A recycled gate, entered twice.
#[test]
fn recycled_gate_counts(rt: HostRuntime) -> Result<(), Fail> {
    assert!(&rt; runs_alike(&rt, rt.alloc(), 1000, RECYCLED)?);
    Ok(())
}

/// Names of 32 parts.
#[test]
fn names_of_32_parts(rt: HostRuntime) -> Result<(), Fail> {
    assert!(&rt; runs_alike(&rt, rt.alloc(), 3000, DEEP)?);
    Ok(())
}

/// A slot that is used again.
#[test]
fn slot_is_used_again(rt: HostRuntime) -> Result<(), Fail> {
    assert!(&rt; runs_alike(&rt, rt.alloc(), 1000, REUSED)?);
    Ok(())
}

/// Two children that wait for each other both exit with 0, as does the root.
#[test]
fn children_shake_hands(rt: HostRuntime) -> Result<(), Fail> {
    let alloc = rt.alloc();
    let image = image_of(alloc, 3_000_000, HANDSHAKE)?;
    let text = threaded(&rt, alloc, &image)?;
    let Ok(text) = str::from_utf8(text.as_slice()) else {
        return Err("no text".into());
    };
    let ends = text
        .lines()
        .filter(|line| line.contains(" exited 0 "))
        .count();
    assert_eq!(&rt; ends, 3);
    Ok(())
}

/// Whether an audit finds the first difference at the first entry of the directory of slots.
fn differs_at_once(refusal: &AuditRefusal) -> bool {
    match &refusal.fault {
        AuditFault::Disagree(found) => matches!(&found.cell, CellName::Slots) && found.index == 0,
        AuditFault::NoMemory => false,
    }
}

/// Consumes what a run left, and returns its logs alone, without the histories.
fn emptied(alloc: Global, gathered: Gathered) -> Gathered
    requires { AreKept gathered }
    ensures { AreKept result }
{
    let Gathered { logs, declared, .. } = gathered;
    Gathered {
        logs,
        declared,
        others: Items::new(Vec::new(alloc)),
    }
}

/// A run whose histories are emptied disagrees at the first cell that has an entry, at its first.
#[test]
fn emptied_histories_disagree(rt: HostRuntime) -> Result<(), Fail> {
    let alloc = rt.alloc();
    let image = image_of(alloc, 1000, REUSED)?;
    let emptied = emptied(alloc, run_image(&rt, alloc, &image, &NoPace, false)?);
    let Err(refusal) = audit_of(alloc, &image, emptied) else {
        return Err("no difference".into());
    };
    assert!(&rt; differs_at_once(&refusal));
    Ok(())
}

/// Whether each log keeps as many entries as it counts.
fn keep_all(logs: &[ActorLog]) -> bool {
    logs.iter()
        .all(|log| log.kept.as_slice().len() as u64 == log.count)
}

/// Of loads of a declared tag logs keep no entry, unless all entries are asked for.
#[test]
fn loads_of_a_declared_tag_are_not_kept(rt: HostRuntime) -> Result<(), Fail> {
    let alloc = rt.alloc();
    let image = image_of(alloc, 1000, FRESH)?;
    let whole = run_image(&rt, alloc, &image, &NoPace, true)?;
    assert!(&rt; keep_all(whole.logs.as_slice()));
    let others = run_image(&rt, alloc, &image, &NoPace, false)?;
    assert!(&rt; !keep_all(others.logs.as_slice()));
    Ok(())
}
