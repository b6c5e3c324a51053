//! Making an image of parts.

ghost use Rattle.std.specs.Prelude.{◌≡◌, IfOk, OnOk, Ok};
ghost use Rattle.image_form.specs.Encoding as encoded;
ghost use Rattle.image_form.specs.Rules.{IsImage};
ghost use Rattle.image_form.specs.Reading.{IsImageAnswer, reading};
ghost use Rattle.image_form.specs.View.{image_of};

use crate::fault::{Fault, ImageError, Why};
use crate::image::Image;
use crate::measuring::is_small;
use crate::parts::ImageParts;
use crate::reading::{MOST_BYTES, image_parts};
use crate::writing::encoding;
use std::alloc::Global;

/// Checks parts by the bytes that would be written of them.
fn check_parts(alloc: Global, parts: &ImageParts) -> Result<(), ImageError>
    ensures exact { IsImageAnswer (λ _. image_of parts.now) result
        (reading (encoded.encoding (image_of parts.now))) }
    ensures valid { OnOk result (IsImage (image_of parts.now)) }
{
    if !is_small(parts.lend()) {
        return Err(ImageError::Fault(Fault {
            at: MOST_BYTES,
            why: Why::Limit,
        }));
    }
    let bytes = encoding(alloc, parts.lend())?;
    let _read = image_parts(alloc, &bytes)?;
    Ok(())
}

/// The image whose parts are given, or the first fault of the bytes that would be written of them:
/// its offset is one in those bytes.
pub fn finish_image(alloc: Global, parts: ImageParts) -> Result<Image, ImageError>
    // What is made, or which fault comes first.
    ensures exact { IsImageAnswer (λ i. i) result (reading (encoded.encoding (image_of parts))) }
    // What is made has these parts.
    ensures same { IfOk result (λ i. i ≡ image_of parts) }
    // Parts of an image are made that image, unless memory runs out.
    ensures only { IsImage (image_of parts) → IsImageAnswer
        (λ i. i) result (Ok (image_of parts)) }
{
    match check_parts(alloc, &parts) {
        Ok(()) => Ok(Image::from_parts(parts)),
        Err(error) => Err(error),
    }
}
