//! Values: the bytes that a line of a case file says.

use crate::files::FileSet;
use std::alloc::Global;
use std::{io, str};

/// The bytes of a value: `"text"` with escapes, `hex` and digits, `times` with a number and a text,
/// or `as` with a file, behind which `first=N` takes its first bytes, `from=N` those behind them, and `AT=HH` puts a byte in place of
/// another.
pub(crate) fn bytes_of(files: &FileSet, text: &str) -> io::Result<Vec<u8>> {
    let (head, rest) = split_at_space(text);
    match head {
        "hex" => hex_bytes(files.alloc, rest),
        "times" => repeated(files.alloc, rest),
        "as" => changed(files, rest),
        _ => text_bytes(files.alloc, text),
    }
}

/// The error of a line that is malformed, and how.
pub(crate) fn malformed(why: &str) -> io::Error {
    io::Error::other(why)
}

/// What is before the first space, and what is behind it.
pub(crate) fn split_at_space(text: &str) -> (&str, &str) {
    match text.split_once(' ') {
        Some((head, rest)) => (head, rest),
        None => (text, ""),
    }
}

/// The bytes of pairs of hexadecimal digits, with spaces between them.
fn hex_bytes(alloc: Global, text: &str) -> io::Result<Vec<u8>> {
    let mut bytes = Vec::new(alloc);
    for pair in text.split_whitespace() {
        bytes.push(hex_byte(pair.as_bytes())?)?;
    }
    Ok(bytes)
}

/// The byte of two hexadecimal digits.
fn hex_byte(pair: &[u8]) -> io::Result<u8> {
    let text = str::from_utf8(pair).unwrap_or("");
    match u8::from_str_radix(text, 16) {
        Ok(byte) if text.len() == 2 && !text.starts_with('+') => Ok(byte),
        _ => Err(malformed("a byte has two hexadecimal digits")),
    }
}

/// Adds a line.
pub(crate) fn push_line(bytes: &mut Vec<u8>, line: &str) -> io::Result<()> {
    bytes.extend_from_slice(line.as_bytes())?;
    Ok(bytes.push(b'\n')?)
}

/// A text so many times.
fn repeated(alloc: Global, text: &str) -> io::Result<Vec<u8>> {
    let (times, text) = split_at_space(text);
    let times = number(times)?;
    let piece = text_bytes(alloc, text)?;
    let mut bytes = Vec::new(alloc);
    for _ in 0..times {
        bytes.extend_from_slice(piece.as_slice())?;
    }
    Ok(bytes)
}

/// A number in decimal digits.
pub(crate) fn number(digits: &str) -> io::Result<u32> {
    digits
        .parse()
        .map_err(|_| malformed("no number stands here"))
}

/// The name of a file, which has no space in it.
pub(crate) fn file_name(alloc: Global, name: &str) -> io::Result<String> {
    if name.is_empty() || name.contains(' ') {
        return Err(malformed("a file has a name without a space"));
    }
    Ok(String::from_str(alloc, name)?)
}

/// The bytes of a file, with the changes that words say, one after another.
fn changed(files: &FileSet, text: &str) -> io::Result<Vec<u8>> {
    let (name, changes) = split_at_space(text);
    let mut bytes = Vec::from_slice(files.alloc, files.bytes_of(name)?)?;
    for word in changes.split_whitespace() {
        bytes = change(files.alloc, bytes.as_slice(), word)?;
    }
    Ok(bytes)
}

/// The bytes after a change: `first=N`, `from=N` or `AT=HH`.
fn change(alloc: Global, bytes: &[u8], word: &str) -> io::Result<Vec<u8>> {
    let parts = word.split_once('=');
    let (what, value) = parts.ok_or(malformed("a change is first=N, from=N or AT=HH"))?;
    let part = match what {
        "first" => bytes.get(..number(value)? as usize),
        "from" => bytes.get(number(value)? as usize..),
        at => return with_byte(
            alloc,
            bytes,
            number(at)? as usize,
            hex_byte(value.as_bytes())?,
        ),
    };
    let part = part.ok_or(malformed("the file has fewer bytes"))?;
    Ok(Vec::from_slice(alloc, part)?)
}

/// The bytes with one in place of the one at an offset.
fn with_byte(alloc: Global, bytes: &[u8], at: usize, byte: u8) -> io::Result<Vec<u8>> {
    let mut changed = Vec::from_slice(alloc, bytes)?;
    match changed.get_mut(at) {
        Some(old) => *old = byte,
        None => return Err(malformed("the file has no byte there")),
    }
    Ok(changed)
}

/// The bytes of a text in quotation marks, with the escapes `\n`, `\"`, `\\` and `\xHH`.
fn text_bytes(alloc: Global, text: &str) -> io::Result<Vec<u8>> {
    let text = text
        .strip_prefix('"')
        .and_then(|rest| rest.strip_suffix('"'));
    let text = text.ok_or(malformed("a value is hex, times, as or \"a text\""))?;
    let mut bytes = Vec::new(alloc);
    let mut rest = text.as_bytes();
    for _ in 0..text.len() {
        if !rest.is_empty() {
            let (byte, behind) = first_byte(rest)?;
            bytes.push(byte)?;
            rest = behind;
        }
    }
    Ok(bytes)
}

/// The first byte of a text that is not empty, by itself or by an escape, and what is behind it.
fn first_byte(text: &[u8]) -> io::Result<(u8, &[u8])> {
    match text {
        [b'\\', b'n', rest @ ..] => Ok((b'\n', rest)),
        [b'\\', b'x', high, low, rest @ ..] => Ok((hex_byte(&[*high, *low])?, rest)),
        [b'\\', byte @ (b'"' | b'\\'), rest @ ..] => Ok((*byte, rest)),
        [b'\\' | b'"', ..] | [] => Err(malformed("the escapes are \\n, \\\", \\\\ and \\xHH")),
        [byte, rest @ ..] => Ok((*byte, rest)),
    }
}
