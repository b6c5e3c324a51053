//! Reading the table of files.

ghost use Rattle.std.specs.Prelude.{◌≡◌, [], nat_le};
ghost use Rattle.image_form.specs.declared.fault.Why.TheVariants as why;
ghost use Rattle.image_form.specs.Reading as reading;
ghost use Rattle.image_form.specs.Reading.{IsImageAnswer, last_of};

use crate::entries::ReadEntry;
use crate::fault::{ImageError, Why};
use crate::fields::{kind, number, path_after, refused, stream_content};
use std::alloc::Global;
use wedge_base::{Bytes, FileEntry};

/// The most files of an image.
pub(crate) const MOST_FILES: u32 = 1024;

/// The path of the last file, or no bytes.
fn last_path(front: &[FileEntry]) -> &[u8]
    ensures { result.now ≡ last_of (λ f. f.path) [] front.now }
{
    match front.last() {
        Some(file) => file.path.as_slice(),
        None => &[],
    }
}

/// The mode of a file.
#[tactic(auto, unfolding(crate::specs::Reading::checked_at))]
fn mode(total: usize, bytes: &[u8]) -> Result<(u32, &[u8]), ImageError>
    ensures { IsImageAnswer (λ x. (x.0, x.1.now)) result
        (reading.checked_at (λ n. nat_le n 15) why.Range total bytes.now) }
{
    let (mode, rest) = number(total, bytes)?;
    if 15 < mode {
        return Err(refused(total, bytes, Why::Range));
    }
    Ok((mode, rest))
}

impl ReadEntry for FileEntry {
    ghost use Rattle.image_form.specs.Reading.{file_entry_at};

    ghost entry_at = { file_entry_at };

    #[tactic(auto, unfolding(crate::specs::Reading::file_entry_at))]
    fn read<'a>(
        alloc: Global,
        front: &[FileEntry],
        total: usize,
        bytes: &'a [u8],
    ) -> Result<(FileEntry, &'a [u8]), ImageError> {
        let (path, rest) = path_after(last_path(front), total, bytes)?;
        let (owner, rest) = number(total, rest)?;
        let (mode, rest) = mode(total, rest)?;
        let (kind, rest) = kind(total, rest)?;
        let (content, rest) = stream_content(alloc, kind, total, rest)?;
        let path = Bytes::from_slice(alloc, path)?;
        Ok((
            FileEntry {
                path,
                owner,
                mode,
                kind,
                content,
            },
            rest,
        ))
    }
}
