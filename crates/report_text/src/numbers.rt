//! Numbers, names and quoted bytes as text.

ghost use Rattle.std.specs.Prelude.{◌≡◌, ◌<◌, ◌/◌, ◌%◌, ◌^◌, ◌++◌, OnOk, OnErr};
ghost use Rattle.std.specs.Fmt.{decimal};
ghost use Rattle.report_text.specs.Reports.{hex_digit, address_text, pc_text, name_text, escaped, quoted};

use std::string::ToString;
use wedge_base::NoMemory;

/// Adds a number in decimal.
pub fn write_decimal(out: &mut Vec<u8>, number: u32) -> Result<(), NoMemory>
    ensures ok { OnOk result (out.new.items ≡ out.old.items ++ decimal number) }
    ensures err { OnErr result (out.new.items ≡ out.old.items) }
{
    let text = number.to_string(*out.allocator())?;
    out.extend_from_slice(text.as_bytes())?;
    Ok(())
}

/// The hexadecimal digit of the lowest four bits.
#[tactic(auto, unfolding(crate::specs::Reports::hex_digit))]
fn hex_digit(number: u32) -> u8
    ensures { result ≡ hex_digit (number % 16) }
{
    let digit = (number % 16) as u8;
    if digit < 10 {
        b'0' + digit
    } else {
        b'a' + (digit - 10)
    }
}

/// Adds an address in eight hexadecimal digits.
pub fn write_address(out: &mut Vec<u8>, address: u32) -> Result<(), NoMemory>
    ensures ok { OnOk result (out.new.items ≡ out.old.items ++ address_text address) }
    ensures err { OnErr result (out.new.items ≡ out.old.items) }
{
    out.extend_from_slice(&[
        hex_digit(address >> 28),
        hex_digit(address >> 24),
        hex_digit(address >> 20),
        hex_digit(address >> 16),
        hex_digit(address >> 12),
        hex_digit(address >> 8),
        hex_digit(address >> 4),
        hex_digit(address),
    ])?;
    Ok(())
}

/// Adds where something happened.
#[tactic(auto, unfolding(crate::specs::Reports::pc_text))]
pub fn write_pc(out: &mut Vec<u8>, pc: u32) -> Result<(), NoMemory>
    ensures { OnOk result (out.new.items ≡ out.old.items ++ pc_text pc) }
{
    out.extend_from_slice(b" pc ")?;
    write_address(out, pc)
}

/// Adds the parts of a name, with a dot between each two.
pub fn write_name(out: &mut Vec<u8>, parts: &[u32]) -> Result<(), NoMemory>
    ensures { OnOk result (out.new.items ≡ out.old.items ++ name_text parts.now) }
{
    for (i, part) in parts.iter().enumerate() {
        if i > 0 {
            out.push(b'.')?;
        }
        write_decimal(out, *part)?;
    }
    Ok(())
}

/// Adds a byte as it is written in quotes.
#[tactic(auto, unfolding(crate::specs::Reports::escaped))]
fn write_escaped(out: &mut Vec<u8>, byte: u8) -> Result<(), NoMemory>
    ensures ok { OnOk result (out.new.items ≡ out.old.items ++ escaped byte) }
    ensures err { OnErr result (out.new.items ≡ out.old.items) }
{
    match byte {
        b'"' | b'\\' | 0..=0x1f | 0x7f..=0xff => {
            let code = byte as u32;
            out.extend_from_slice(&[b'\\', hex_digit(code / 16), hex_digit(code)])?;
        }
        _ => out.push(byte)?,
    }
    Ok(())
}

/// Adds bytes in quotes.
#[tactic(auto, unfolding(crate::specs::Reports::quoted))]
pub fn write_quoted(out: &mut Vec<u8>, bytes: &[u8]) -> Result<(), NoMemory>
    ensures { OnOk result (out.new.items ≡ out.old.items ++ quoted bytes.now) }
{
    out.push(b'"')?;
    for byte in bytes {
        write_escaped(out, *byte)?;
    }
    out.push(b'"')?;
    Ok(())
}
