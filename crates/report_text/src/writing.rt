//! Writing a schedule.

ghost use Rattle.std.specs.Prelude.{◌≡◌, ℕ, ◌^◌, ◌<◌, ◌++◌, slice_index, IfOk, OnOk, Ok};
ghost use Rattle.report_text.specs.Schedules.{actors_of, name_line, names_in, schedule_of};

use crate::numbers::write_name;
use std::alloc::Global;
use wedge_base::NoMemory;
use wedge_events::Journal;

/// Adds the line of the name of these parts, which are below 2 ^ 32 since they are of 32 bits.
#[tactic(auto, unfolding(crate::specs::Schedules::name_line))]
fn write_line(out: &mut Vec<u8>, parts: &[u32]) -> Result<(), NoMemory>
    ensures text { OnOk result (out.new.items ≡ out.old.items ++ name_line parts.now) }
    ensures small { (i : ℕ) → slice_index parts.now i < 2 ^ 32 }
{
    write_name(out, parts)?;
    out.push(b'\n')?;
    Ok(())
}

/// The schedule of a journal: for each of its entries, in order, the name of the entry's actor and LF.
pub fn write_schedule(alloc: Global, journal: &Journal) -> Result<Vec<u8>, NoMemory>
    // A line for each entry, with the name of its actor.
    ensures text { IfOk result
        (λ text. text.items ≡ schedule_of (actors_of journal.now.entries)) }
    // It is read as these names.
    ensures again { IfOk result
        (λ text. names_in text.items ≡ Ok (actors_of journal.now.entries)) }
{
    let mut out = Vec::new(alloc);
    for entry in journal.entries.as_slice() {
        write_line(&mut out, entry.actor.parts())?;
    }
    Ok(out)
}
