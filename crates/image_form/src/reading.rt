//! Reading a whole image.

ghost use Rattle.std.specs.Prelude.{◌≡◌, ◌==◌, IfOk, Ok};
ghost use Rattle.wedge_base.specs.Images as images;
ghost use Rattle.image_form.specs.Rules.{Encodes};
ghost use Rattle.image_form.specs.declared.fault.Why.TheVariants as why;
ghost use Rattle.image_form.specs.Encoding as encoded;
ghost use Rattle.image_form.specs.Rules as rules;
ghost use Rattle.image_form.specs.Reading as reading;
ghost use Rattle.image_form.specs.Reading.{IsImageAnswer};
ghost use Rattle.image_form.specs.View.{image_of};

use crate::entries::entry_table;
use crate::fault::{Fault, ImageError, Why};
use crate::fds::MOST_DECLARED_FDS;
use crate::fields::{limited, number, refused, root};
use crate::files::MOST_FILES;
use crate::image::Image;
use crate::parts::ImageParts;
use crate::procedures::{entry, procedures};
use crate::ranges::ranges;
use crate::tags::MOST_TAGS;
use crate::text::{base, words};
use crate::text_span::TextSpan;
use std::alloc::Global;
use wedge_base::Items;

/// The number that the first four bytes `WEDG` encode.
pub(crate) const MAGIC: u32 = 0x47444557;

/// The one version of the form.
pub(crate) const VERSION: u32 = 1;

/// The most fuel of an image, in units.
const MOST_FUEL: u32 = 16777216;

/// The most bytes of an image's file.
pub(crate) const MOST_BYTES: usize = 16777216;

/// The magic number and the version.
#[tactic(auto, unfolding(crate::specs::Reading::checked_at))]
fn magic(total: usize, bytes: &[u8]) -> Result<(u32, &[u8]), ImageError>
    ensures { IsImageAnswer (λ x. (x.0, x.1.now)) result
        (reading.checked_at (λ n. n == encoded.magic) why.Magic total bytes.now) }
{
    let (number, rest) = number(total, bytes)?;
    if number != MAGIC {
        return Err(refused(total, bytes, Why::Magic));
    }
    Ok((number, rest))
}

/// The version of the form.
#[tactic(auto, unfolding(crate::specs::Reading::checked_at))]
fn version(total: usize, bytes: &[u8]) -> Result<(u32, &[u8]), ImageError>
    ensures { IsImageAnswer (λ x. (x.0, x.1.now)) result
        (reading.checked_at (λ n. n == encoded.version) why.Version total bytes.now) }
{
    let (number, rest) = number(total, bytes)?;
    if number != VERSION {
        return Err(refused(total, bytes, Why::Version));
    }
    Ok((number, rest))
}

/// The fuel, after the magic number and the version.
#[tactic(auto, unfolding(crate::specs::Reading::header_at))]
fn header(total: usize, bytes: &[u8]) -> Result<(u32, &[u8]), ImageError>
    ensures { IsImageAnswer (λ x. (x.0, x.1.now)) result (reading.header_at total bytes.now) }
{
    let (_, rest) = magic(total, bytes)?;
    let (_, rest) = version(total, rest)?;
    limited(MOST_FUEL, total, rest)
}

/// The parts of an image.
#[tactic(auto, unfolding(crate::specs::Reading::tags_at, crate::specs::Reading::fds_at, crate::specs::Reading::files_at, crate::specs::Reading::image_at))]
fn parts(alloc: Global, total: usize, bytes: &[u8]) -> Result<(ImageParts, &[u8]), ImageError>
    ensures { IsImageAnswer
        (λ x. (image_of x.0, x.1.now)) result (reading.image_at total bytes.now) }
{
    let (fuel, rest) = header(total, bytes)?;
    let (base, rest) = base(total, rest)?;
    let (words, rest) = words(alloc, base, total, rest)?;
    let text = TextSpan {
        base,
        count: words.len(),
    };
    let (procedures, rest) = procedures(alloc, text, total, rest)?;
    let (entry, rest) = entry(&procedures, total, rest)?;
    let (ranges, rest) = ranges(alloc, text, total, rest)?;
    let (tags, rest) = entry_table(alloc, MOST_TAGS, total, rest)?;
    let (fds, rest) = entry_table(alloc, MOST_DECLARED_FDS, total, rest)?;
    let (files, rest) = entry_table(alloc, MOST_FILES, total, rest)?;
    let (user, rest) = number(total, rest)?;
    let (root, rest) = root(alloc, total, rest)?;
    let parts = ImageParts {
        fuel,
        base,
        words: Items::new(words),
        procedures: Items::new(procedures),
        entry,
        ranges: Items::new(ranges),
        tags: Items::new(tags),
        fds: Items::new(fds),
        files: Items::new(files),
        user,
        root,
    };
    Ok((parts, rest))
}

/// The parts of the image that all the bytes are.
#[tactic(auto, unfolding(crate::specs::Reading::reading))]
fn all_parts(alloc: Global, bytes: &[u8]) -> Result<ImageParts, ImageError>
    ensures { IsImageAnswer image_of result (reading.reading bytes.now) }
{
    let total = bytes.len();
    if MOST_BYTES < total {
        return Err(ImageError::Fault(Fault {
            at: MOST_BYTES,
            why: Why::Limit,
        }));
    }
    let (parts, rest) = parts(alloc, total, bytes)?;
    if !rest.is_empty() {
        return Err(refused(total, rest, Why::Trailing));
    }
    Ok(parts)
}

/// The same, and that the bytes are an encoding exactly where they are read.
pub(crate) fn image_parts(alloc: Global, bytes: &[u8]) -> Result<ImageParts, ImageError>
    ensures exact { IsImageAnswer image_of result (reading.reading bytes.now) }
    ensures found { IfOk result (λ p. Encodes (image_of p) bytes.now) }
    ensures only { (i : images.Image) → Encodes i bytes.now
        → IsImageAnswer image_of result (Ok i) }
{
    all_parts(alloc, bytes)
}

/// The image that the bytes are, or the first fault by the order of the fields. The bytes of a file
/// of more than 16,777,216 bytes are not looked at.
pub fn read_image(alloc: Global, bytes: &[u8]) -> Result<Image, ImageError>
    // What is read, or which fault comes first.
    ensures exact { IsImageAnswer (λ i. i) result (reading.reading bytes.now) }
    // What is read is an image, and all the bytes are its encoding.
    ensures found { IfOk result (λ i. Encodes i bytes.now) }
    // What is the encoding of an image is read as that image, unless memory runs out.
    ensures only { (i : images.Image) → Encodes i bytes.now → IsImageAnswer
        (λ j. j) result (Ok i) }
{
    match image_parts(alloc, bytes) {
        Ok(parts) => Ok(Image::from_parts(parts)),
        Err(error) => Err(error),
    }
}
