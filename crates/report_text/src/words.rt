//! Ends, rights and denials as text.

ghost use Rattle.std.specs.Prelude.{◌≡◌, ◌++◌, OnOk};
ghost use Rattle.report_text.specs.Reports.{end_text, right_text, bits_text, gate_text, item_text, denial_text};

use crate::numbers::{write_address, write_decimal};
use wedge_base::{Denial, End, FdBits, Item, NoMemory, Right};

/// Adds how an actor ended.
#[tactic(auto, unfolding(crate::specs::Reports::end_text))]
pub fn write_end(out: &mut Vec<u8>, end: End) -> Result<(), NoMemory>
    ensures { OnOk result (out.new.items ≡ out.old.items ++ end_text end) }
{
    let word: &[u8] = match end {
        End::Exited(value) => {
            out.extend_from_slice(b"exited ")?;
            return write_decimal(out, value);
        }
        End::Denied => b"denied",
        End::Misaligned => b"misaligned",
        End::JumpMisaligned => b"jump-misaligned",
        End::BadInstruction => b"bad-instruction",
        End::FetchFault => b"fetch-fault",
        End::TextStore => b"text-store",
        End::Unmapped => b"unmapped",
        End::Break => b"break",
        End::FuelOut => b"fuel-out",
    };
    out.extend_from_slice(word)?;
    Ok(())
}

/// The name of a right: `Cow`, `Read` or `ReadWrite`.
#[tactic(auto, unfolding(crate::specs::Reports::right_text))]
pub fn right_word(right: Right) -> &'static [u8]
    ensures { result.now ≡ right_text right }
{
    match right {
        Right::Cow => b"Cow",
        Right::Read => b"Read",
        Right::ReadWrite => b"ReadWrite",
    }
}

/// The names of the bits that are set: `read`, `append` or `read+append`, or nothing.
#[tactic(auto, unfolding(crate::specs::Reports::bits_text))]
pub fn bits_word(bits: FdBits) -> &'static [u8]
    ensures { result.now ≡ bits_text bits }
{
    match (bits.read, bits.append) {
        (true, true) => b"read+append",
        (true, false) => b"read",
        (false, true) => b"append",
        (false, false) => b"",
    }
}

/// Adds bytes as they are.
fn write_bytes(out: &mut Vec<u8>, bytes: &[u8]) -> Result<(), NoMemory>
    ensures { OnOk result (out.new.items ≡ out.old.items ++ bytes.now) }
{
    out.extend_from_slice(bytes)?;
    Ok(())
}

/// Adds the gate at an entry.
#[tactic(auto, unfolding(crate::specs::Reports::gate_text))]
fn write_gate(out: &mut Vec<u8>, entry: u32) -> Result<(), NoMemory>
    ensures { OnOk result (out.new.items ≡ out.old.items ++ gate_text entry) }
{
    out.extend_from_slice(b"gate ")?;
    write_address(out, entry)
}

/// Adds a grant of a draft.
#[tactic(auto, unfolding(crate::specs::Reports::item_text))]
fn write_item(out: &mut Vec<u8>, item: Item) -> Result<(), NoMemory>
    ensures { OnOk result (out.new.items ≡ out.old.items ++ item_text item) }
{
    match item {
        Item::Tag { tag, right } => {
            write_bytes(out, b"tag ")?;
            write_decimal(out, tag.0)?;
            write_bytes(out, b" ")?;
            write_bytes(out, right_word(right))
        }
        Item::Fd { fd, bits } => {
            write_bytes(out, b"fd ")?;
            write_decimal(out, fd.0)?;
            write_bytes(out, b" ")?;
            write_bytes(out, bits_word(bits))
        }
        Item::Gate { entry } => write_gate(out, entry),
    }
}

/// Adds the grant that a denied request lacks.
#[tactic(auto, unfolding(crate::specs::Reports::denial_text))]
pub fn write_denial(out: &mut Vec<u8>, denial: &Denial) -> Result<(), NoMemory>
    ensures { OnOk result (out.new.items ≡ out.old.items ++ denial_text denial.now) }
{
    match denial {
        Denial::Tag { tag, wants } => {
            write_bytes(out, b"tag ")?;
            write_decimal(out, tag.0)?;
            write_bytes(out, b" wants ")?;
            write_bytes(out, right_word(*wants))
        }
        Denial::Fd { fd, wants } => {
            write_bytes(out, b"fd ")?;
            write_decimal(out, fd.0)?;
            write_bytes(out, b" wants ")?;
            write_bytes(out, bits_word(*wants))
        }
        Denial::Gate { entry } => write_gate(out, *entry),
        Denial::Grant { item } => {
            write_bytes(out, b"grant ")?;
            write_item(out, *item)
        }
        Denial::User => write_bytes(out, b"user"),
        Denial::Root => write_bytes(out, b"root"),
        Denial::NotMaker { tag } => {
            write_bytes(out, b"not-maker ")?;
            write_decimal(out, tag.0)
        }
        Denial::File { path } => {
            write_bytes(out, b"file ")?;
            write_bytes(out, path.as_slice())
        }
    }
}
