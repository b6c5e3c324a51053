//! The listing of an image's text.

ghost use Rattle.std.specs.Prelude.{◌≡◌, ◌++◌, IfOk, OnOk};
ghost use Rattle.cli_inputs.specs.Listing as listings;

use crate::headings::Headings;
use image_form::Image;
use report_text::write_address;
use rv_isa::{decode, text_of};
use std::alloc::Global;
use wedge_base::NoMemory;

/// The listing of an image's text: a line for each word, with its address and what it says, and before it
/// one for the procedure that begins there.
#[tactic(auto, unfolding(crate::specs::Listing::listing))]
pub fn listing(alloc: Global, image: &Image) -> Result<Vec<u8>, NoMemory>
    ensures { IfOk result (λ v. v.items ≡ listings.listing image.now) }
{
    let headings = Headings::new(alloc, image)?;
    let mut out = Vec::new(alloc);
    let mut address = image.base();
    for word in image.words() {
        write_name(headings.at(address), &mut out)?;
        write_word_line(alloc, address, *word, &mut out)?;
        address = address.wrapping_add(4);
    }
    Ok(out)
}

/// Adds a name on a line of its own; nothing where it is empty.
fn write_name(name: &[u8], out: &mut Vec<u8>) -> Result<(), NoMemory>
    ensures { OnOk result (out.new.items ≡ out.old.items ++ listings.heading name.now) }
{
    if name.is_empty() {
        return Ok(());
    }
    out.extend_from_slice(name)?;
    out.extend_from_slice(b":\n")?;
    Ok(())
}

/// Adds the line of a word at an address.
#[tactic(auto, unfolding(crate::specs::Listing::word_line))]
fn write_word_line(
    alloc: Global,
    address: u32,
    word: u32,
    out: &mut Vec<u8>,
) -> Result<(), NoMemory>
    ensures { OnOk result (out.new.items ≡ out.old.items ++ listings.word_line address word) }
{
    write_column(address, out)?;
    write_column(word, out)?;
    write_word(alloc, word, out)?;
    out.push(b'\n')?;
    Ok(())
}

/// Adds eight hexadecimal digits and a space.
#[tactic(auto, unfolding(crate::specs::Listing::column))]
fn write_column(number: u32, out: &mut Vec<u8>) -> Result<(), NoMemory>
    ensures { OnOk result (out.new.items ≡ out.old.items ++ listings.column number) }
{
    write_address(out, number)?;
    out.push(b' ')?;
    Ok(())
}

/// Adds what a word says.
#[tactic(auto, unfolding(crate::specs::Listing::says))]
fn write_word(alloc: Global, word: u32, out: &mut Vec<u8>) -> Result<(), NoMemory>
    ensures { OnOk result (out.new.items ≡ out.old.items ++ listings.says word) }
{
    match decode(word) {
        None => {
            out.extend_from_slice(b".word 0x")?;
            write_address(out, word)
        }
        Some(instr) => {
            let mut text = String::new(alloc);
            text_of(instr, &mut text)?;
            out.extend_from_slice(text.as_bytes())?;
            Ok(())
        }
    }
}
