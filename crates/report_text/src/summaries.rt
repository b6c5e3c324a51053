//! The summary of a run of the workload.

ghost use Rattle.std.specs.Prelude.{◌≡◌, ◌++◌, OnOk, IfOk};
ghost use Rattle.report_text.specs.Summaries.{exit_value, fuel_left, denials_of, field, summary_of};

use std::alloc::Global;
use std::string::ToString;
use wedge_base::{ActorLine, End, NoMemory, Outcome};

/// Returns the value with which the root exited, or 0. The root is the first actor.
fn exit_value(actors: &[ActorLine]) -> u32
    ensures { result ≡ exit_value actors.now }
{
    let Some(root) = actors.first() else {
        return 0;
    };
    match root.end {
        End::Exited(value) => value,
        _ => 0,
    }
}

/// Returns the units of fuel that the root has left.
fn fuel_left(actors: &[ActorLine]) -> u32
    ensures { result ≡ fuel_left actors.now }
{
    match actors.first() {
        Some(root) => root.fuel,
        None => 0,
    }
}

/// Returns how many denials there were, or 2^64 - 1 where there were more.
fn denials_of(actors: &[ActorLine]) -> u64
    ensures { result ≡ denials_of actors.now }
{
    let mut count = 0u64;
    for actor in actors {
        count = count.saturating_add(actor.denials.as_slice().len() as u64);
    }
    count
}

/// Adds a word, a space, a number in decimal and a byte.
#[tactic(auto, unfolding(crate::specs::Summaries::field))]
pub(crate) fn write_field(
    out: &mut Vec<u8>,
    word: &[u8],
    number: u64,
    after: u8,
) -> Result<(), NoMemory>
    ensures { OnOk result (out.new.items ≡ out.old.items ++ field word.now number after) }
{
    let text = number.to_string(*out.allocator())?;
    out.extend_from_slice(word)?;
    out.push(b' ')?;
    out.extend_from_slice(text.as_bytes())?;
    out.push(after)?;
    Ok(())
}

/// Returns the one line that sums up a run of the workload: the number of workers, of actors, of denials (2^64 - 1 where
/// there were more) and of entries of the journal, the value with which the root exited (0 where it did not), and the units
/// of fuel that it has left. The root is the first actor of the outcome. Fails only where out of memory.
#[tactic(auto, unfolding(crate::specs::Summaries::summary_of))]
pub fn summary(
    alloc: Global,
    workers: u32,
    outcome: &Outcome,
    entries: u64,
) -> Result<Vec<u8>, NoMemory>
    ensures { IfOk result (λ text. text.items ≡ summary_of workers outcome.now entries) }
{
    let actors = outcome.actors.as_slice();
    let mut out = Vec::new(alloc);
    write_field(&mut out, b"workers", u64::from(workers), b' ')?;
    write_field(&mut out, b"actors", actors.len() as u64, b' ')?;
    write_field(&mut out, b"denials", denials_of(actors), b' ')?;
    write_field(&mut out, b"entries", entries, b' ')?;
    write_field(&mut out, b"value", u64::from(exit_value(actors)), b' ')?;
    write_field(&mut out, b"fuel", u64::from(fuel_left(actors)), b'\n')?;
    Ok(out)
}
