//! The service call that opens a file.

ghost use Rattle.std.specs.Prelude.{◌≡◌, ◌<◌, OnOk};
ghost use Rattle.std.specs.Option.{option_copied};
ghost use Rattle.cow_pages.specs.PrivateMemory.{PrivateMemory};
ghost use Rattle.machine.specs.declared.phase.Phase.TheVariants as phase;
ghost use Rattle.machine.specs.Calls as calls;
ghost use Rattle.machine.specs.Actors.{whole};

use crate::roots::path_in;
use cow_pages::PrivateView;
use file_tree::{file_at, may_open};
use image_form::Image;
use machine::{A0, A1, A2, Actor, FileOpening, Phase};
use wedge_base::{Code, Denial, FdBits, FileEntry, NoMemory, PathText, StreamKind};

/// The call that opens a file, up to the claim of a number for its descriptor.
pub(crate) fn file_open(
    actor: &mut Actor,
    image: &Image,
    memory: &PrivateView,
) -> Result<(), NoMemory>
    ensures { OnOk result (whole actor.new memory.now
        ≡ calls.file_open image.now (whole actor.old memory.now)) }
{
    let pointer = actor.hart.reg(A0);
    let length = actor.hart.reg(A1);
    let bits = mode_asked(actor.hart.reg(A2));
    let path = path_in(actor, image, memory, pointer, length)?;
    open_path(actor, image, bits, path)
}

/// Opens the file of a path, if there is one, with bits, if these may be asked for.
fn open_path(
    actor: &mut Actor,
    image: &Image,
    bits: Option<FdBits>,
    path: Option<PathText>,
) -> Result<(), NoMemory>
    ensures { OnOk result ((m : PrivateMemory) → whole actor.new m
        ≡ calls.open_path image.now (whole actor.old m) bits path) }
{
    let (Some(bits), Some(path)) = (bits, path) else {
        actor.refuse(Code::Bad);
        return Ok(());
    };
    if actor.fuel < actor.hart.reg(A1) {
        actor.refuse(Code::FuelShort);
        return Ok(());
    }
    let file = find_file(image, &path);
    open_file(actor, path, bits, file)
}

/// Opens a file, if there is one, under a path, with bits.
fn open_file(
    actor: &mut Actor,
    path: PathText,
    bits: FdBits,
    file: Option<&FileEntry>,
) -> Result<(), NoMemory>
    ensures { OnOk result ((m : PrivateMemory) → whole actor.new m
        ≡ calls.open_file (whole actor.old m) path bits (option_copied file.entry)) }
{
    let Some(file) = file else {
        actor.refuse(Code::NoSuch);
        return Ok(());
    };
    if !may_open(actor.sheet.user(), file, bits) {
        actor.note(Denial::File { path })?;
        actor.refuse(Code::Denied);
        return Ok(());
    }
    if !suits(file.kind, bits) {
        actor.refuse(Code::Bad);
        return Ok(());
    }
    let opening = FileOpening::new(actor.alloc, path, file, bits)?;
    actor.phase = Phase::OpeningFile(opening);
    Ok(())
}

/// The file of a path.
fn find_file<'a>(image: &'a Image, path: &PathText) -> Option<&'a FileEntry>
    ensures { option_copied result ≡ calls.file_at image.now path.now }
{
    file_at(image.files(), path.as_slice())
}

/// The bits that an argument asks for: 1 to read, 2 to append.
fn mode_asked(number: u32) -> Option<FdBits>
    ensures { result ≡ calls.mode_asked number }
{
    match number {
        1 => Some(FdBits {
            read: true,
            append: false,
        }),
        2 => Some(FdBits {
            read: false,
            append: true,
        }),
        _ => None,
    }
}

/// Whether a file of this kind may be opened with bits: a source to be read, an append stream to be appended to.
fn suits(kind: StreamKind, bits: FdBits) -> bool
    ensures { result ≡ calls.suits kind bits }
{
    match kind {
        StreamKind::Source => bits.read,
        StreamKind::Append => bits.append,
    }
}
