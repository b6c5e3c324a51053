//! Writing an image.

ghost use Rattle.std.specs.Prelude.{◌≡◌, ◌<◌, ◌^◌, ◌++◌, length, OnOk, IfOk, Ok};
ghost use Rattle.std.specs.Int.{w16, to_le_bytes};
ghost use Rattle.std.specs.List.{concat};
ghost use Rattle.wedge_base.specs.Images as images;
ghost use Rattle.image_form.specs.Encoding as encoded;
ghost use Rattle.image_form.specs.Fitting as fitting;
ghost use Rattle.image_form.specs.Rules.{Encodes};
ghost use Rattle.image_form.specs.Reading.{reading};
ghost use Rattle.image_form.specs.View.{lent_image};

use crate::image::Image;
use crate::parts::LentParts;
use crate::reading::{MAGIC, VERSION};
use crate::tables::put_table;
use std::alloc::Global;
use wedge_base::{FdBits, NoMemory, Right, StreamKind};

#[tactic(auto, unfolding(crate::specs::Encoding::encode_number))]
pub(crate) fn put_number(out: &mut Vec<u8>, n: u32) -> Result<(), NoMemory>
    ensures { OnOk result (out.new.items ≡ out.old.items ++ encoded.encode_number n) }
{
    out.extend_from_slice(&n.to_le_bytes())?;
    Ok(())
}

#[tactic(auto, unfolding(crate::specs::Encoding::encode_string))]
pub(crate) fn put_string(out: &mut Vec<u8>, text: &[u8]) -> Result<(), NoMemory>
    ensures { OnOk result (out.new.items ≡ out.old.items ++ encoded.encode_string text.now) }
{
    let length = text.len().min(65535) as u16;
    out.extend_from_slice(&length.to_le_bytes())?;
    out.extend_from_slice(text)?;
    Ok(())
}

#[tactic(auto, unfolding(crate::specs::Encoding::encode_content))]
pub(crate) fn put_content(out: &mut Vec<u8>, bytes: &[u8]) -> Result<(), NoMemory>
    requires { length bytes.now < 2 ^ 32 }
    ensures { OnOk result (out.new.items ≡ out.old.items ++ encoded.encode_content bytes.now) }
{
    put_number(out, bytes.len() as u32)?;
    out.extend_from_slice(bytes)?;
    Ok(())
}

pub(crate) fn right_code(right: Option<Right>) -> u32
    ensures { result ≡ encoded.right_code right }
{
    match right {
        None => 0,
        Some(Right::Cow) => 1,
        Some(Right::Read) => 2,
        Some(Right::ReadWrite) => 3,
    }
}

pub(crate) fn kind_code(kind: StreamKind) -> u32
    ensures { result ≡ encoded.kind_code kind }
{
    match kind {
        StreamKind::Source => 0,
        StreamKind::Append => 1,
    }
}

pub(crate) fn bits_code(bits: FdBits) -> u32
    ensures { result ≡ encoded.bits_code bits }
{
    let read = if bits.read { 1 } else { 0 };
    let append = if bits.append { 2 } else { 0 };
    read + append
}

/// The bytes that encode the parts.
#[tactic(auto, unfolding(crate::specs::Encoding::encoding))]
pub(crate) fn encoding(alloc: Global, parts: LentParts<'_>) -> Result<Vec<u8>, NoMemory>
    requires { fitting.PartsFit (lent_image parts) }
    ensures { IfOk result (λ v. v.items ≡ encoded.encoding (lent_image parts.entry)) }
{
    let mut out = Vec::new(alloc);
    put_number(&mut out, MAGIC)?;
    put_number(&mut out, VERSION)?;
    put_number(&mut out, parts.fuel)?;
    put_number(&mut out, parts.base)?;
    put_table(&mut out, parts.words)?;
    put_table(&mut out, parts.procedures)?;
    put_number(&mut out, parts.entry)?;
    put_table(&mut out, parts.ranges)?;
    put_table(&mut out, parts.tags)?;
    put_table(&mut out, parts.fds)?;
    put_table(&mut out, parts.files)?;
    put_number(&mut out, parts.user)?;
    put_string(&mut out, parts.root)?;
    Ok(out)
}

/// The bytes of an image's file: its one encoding.
pub fn write_image(alloc: Global, image: &Image) -> Result<Vec<u8>, NoMemory>
    ensures found { IfOk result (λ v. Encodes image.now v.items) }
    // They are read again as this image.
    ensures again { IfOk result (λ v. reading v.items ≡ Ok image.now) }
    // They encode no other image.
    ensures alone { (i : images.Image) → IfOk result
        (λ v. Encodes i v.items → i ≡ image.now) }
{
    encoding(alloc, image.lend())
}
