//! The counts of the caches of rights, as text.

ghost use Rattle.std.specs.Prelude.{◌≡◌, ◌++◌, OnOk};
ghost use Rattle.report_text.specs.CacheTexts.{cache_line, cache_lines};

use crate::numbers::write_name;
use crate::summaries::write_field;
use grant_cache::CacheLine;
use wedge_base::NoMemory;

/// Adds the line of an actor's counts.
#[tactic(auto, unfolding(crate::specs::CacheTexts::cache_line))]
fn write_cache(out: &mut Vec<u8>, line: &CacheLine) -> Result<(), NoMemory>
    ensures { OnOk result (out.new.items ≡ out.old.items ++ cache_line line.now) }
{
    out.extend_from_slice(b"cache ")?;
    write_name(out, line.name.parts())?;
    out.extend_from_slice(b" ")?;
    write_field(out, b"lookups", line.count.lookups, b' ')?;
    write_field(out, b"hits", line.count.hits, b' ')?;
    write_field(out, b"refused", line.count.refused, b'\n')?;
    Ok(())
}

/// Adds a line for each actor: its name, and of its cache of rights the look-ups, the hits, and the entries that were
/// refused. Each line ends with LF. Fails only where out of memory.
#[tactic(auto, unfolding(crate::specs::CacheTexts::cache_lines))]
pub fn write_caches(out: &mut Vec<u8>, lines: &[CacheLine]) -> Result<(), NoMemory>
    ensures { OnOk result (out.new.items ≡ out.old.items ++ cache_lines lines.now) }
{
    for line in lines {
        write_cache(out, line)?;
    }
    Ok(())
}
