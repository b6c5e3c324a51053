//! Where a run on threads differs, as text.

ghost use Rattle.std.specs.Prelude.{◌≡◌, ◌++◌, codes, OnOk};
ghost use Rattle.std.specs.Fmt.{decimal};
ghost use Rattle.audited_run.specs.Texts.{cell_text, difference_text};

use report_text::{write_decimal, write_name};
use run_audit::Difference;
use std::string::ToString;
use wedge_base::NoMemory;
use wedge_events::CellName;

/// Adds `disagree in CELL at INDEX`: the cell whose history differs from the logs, and the index, from 0, of the first
/// entry of that cell that does.
pub fn write_difference(out: &mut Vec<u8>, difference: &Difference) -> Result<(), NoMemory>
    ensures { OnOk result (out.new.items ≡ out.old.items ++ difference_text difference.now) }
{
    out.extend_from_slice(b"disagree in ")?;
    write_cell(out, &difference.cell)?;
    write_index(out, difference.index)?;
    Ok(())
}

/// Adds where in a cell.
fn write_index(out: &mut Vec<u8>, index: usize) -> Result<(), NoMemory>
    ensures { OnOk result (out.new.items ≡ out.old.items ++ codes " at " ++ decimal index) }
{
    let text = index.to_string(*out.allocator())?;
    out.extend_from_slice(b" at ")?;
    out.extend_from_slice(text.as_bytes())?;
    Ok(())
}

/// Adds the name of a cell.
fn write_cell(out: &mut Vec<u8>, cell: &CellName) -> Result<(), NoMemory>
    ensures { OnOk result (out.new.items ≡ out.old.items ++ cell_text cell.now) }
{
    match cell {
        CellName::Slots => write_word(out, b"slots"),
        CellName::Slot { slot } => write_numbered(out, b"slot ", slot.0),
        CellName::Fds => write_word(out, b"fds"),
        CellName::Fd { fd } => write_numbered(out, b"fd ", fd.0),
        CellName::Lives => write_word(out, b"lives"),
        CellName::Gate { gate } => {
            out.extend_from_slice(b"gate ")?;
            write_name(out, gate.maker.parts())?;
            write_numbered(out, b"#", gate.number)
        }
    }
}

/// Adds a word.
fn write_word(out: &mut Vec<u8>, word: &[u8]) -> Result<(), NoMemory>
    ensures { OnOk result (out.new.items ≡ out.old.items ++ word.now) }
{
    out.extend_from_slice(word)?;
    Ok(())
}

/// Adds a word and a number behind it.
fn write_numbered(out: &mut Vec<u8>, word: &[u8], number: u32) -> Result<(), NoMemory>
    ensures { OnOk result (out.new.items ≡ out.old.items ++ word.now ++ decimal number) }
{
    out.extend_from_slice(word)?;
    write_decimal(out, number)
}
