//! The tables of an image as they are written: how many entries there are, and the entries.

ghost use Rattle.std.specs.Prelude.{◌≡◌, ◌≤◌, ◌++◌, OnSome, OnOk};
ghost use Rattle.image_form.specs.Encoding as encoded;
ghost use Rattle.image_form.specs.Fitting as fitting;
ghost use Rattle.image_form.specs.Fitting.{Leaves};

use crate::measuring::{after_content, after_number, after_string};
use crate::writing::{bits_code, kind_code, put_content, put_number, put_string, right_code};
use wedge_base::{FdEntry, FileEntry, MemoryRange, NoMemory, Procedure, TagEntry};

/// An entry of a table.
pub(crate) trait TableEntry {
    ghost use Rattle.std.specs.Prelude.{◌≡◌, ◌<◌, ◌≤◌, ◌++◌, ℕ, List, OnSome, IfSome, OnOk};
    ghost use Rattle.image_form.specs.Fitting.{Leaves};

    ghost encode: { Self → List ℕ };

    ghost fits: { Self → Type 0 };

    /// How many bytes of the room are left after the entry, which takes at least one. None where it
    /// takes more than there are.
    fn after(&self, room: usize) -> Option<usize>
        requires { room ≤ 16777216 }
        ensures leaves { Leaves room (encode self.now) result }
        ensures less { IfSome result (λ left. left < room) }
        ensures fits { OnSome result (fits self.now) };

    /// Appends the bytes that encode the entry.
    fn put(&self, out: &mut Vec<u8>) -> Result<(), NoMemory>
        requires { fits self.now }
        ensures { OnOk result (out.new.items ≡ out.old.items ++ encode self.now) };
}

/// How many bytes of the room are left after a table. None where it takes more than there are.
pub(crate) fn after_table<T: TableEntry>(room: usize, entries: &[T]) -> Option<usize>
    requires { room ≤ 16777216 }
    ensures leaves { Leaves room (encoded.encode_table T.encode entries.now) result }
    ensures fits { OnSome result (fitting.TableFits T.fits entries.now) }
{
    let mut room = room.checked_sub(4)?;
    for entry in entries {
        room = entry.after(room)?;
    }
    Some(room)
}

/// Appends the bytes that encode a table.
pub(crate) fn put_table<T: TableEntry>(out: &mut Vec<u8>, entries: &[T]) -> Result<(), NoMemory>
    requires { fitting.TableFits T.fits entries.now }
    ensures { OnOk result (out.new.items
        ≡ out.old.items ++ encoded.encode_table T.encode entries.now) }
{
    put_number(out, entries.len() as u32)?;
    for entry in entries {
        entry.put(out)?;
    }
    Ok(())
}

impl TableEntry for u32 {
    ghost use Rattle.image_form.specs.Encoding.{encode_number};
    ghost use Rattle.image_form.specs.Fitting.{WordFits};

    ghost encode = { encode_number };

    ghost fits = { WordFits };

    fn after(&self, room: usize) -> Option<usize> {
        after_number(room, *self)
    }

    fn put(&self, out: &mut Vec<u8>) -> Result<(), NoMemory> {
        put_number(out, *self)
    }
}

impl TableEntry for Procedure {
    ghost use Rattle.image_form.specs.Encoding.{encode_procedure};
    ghost use Rattle.image_form.specs.Fitting.{ProcedureFits};

    ghost encode = { encode_procedure };

    ghost fits = { ProcedureFits };

    fn after(&self, room: usize) -> Option<usize> {
        let address = self.address;
        let room = after_string(room, self.name.as_slice())?;
        after_number(room, address)
    }

    fn put(&self, out: &mut Vec<u8>) -> Result<(), NoMemory> {
        put_string(out, self.name.as_slice())?;
        put_number(out, self.address)
    }
}

impl TableEntry for MemoryRange {
    ghost use Rattle.image_form.specs.Encoding.{encode_range};
    ghost use Rattle.image_form.specs.Fitting.{RangeFits};

    ghost encode = { encode_range };

    ghost fits = { RangeFits };

    fn after(&self, room: usize) -> Option<usize> {
        let room = after_number(room, self.base)?;
        after_content(room, self.bytes.as_slice())
    }

    fn put(&self, out: &mut Vec<u8>) -> Result<(), NoMemory> {
        put_number(out, self.base)?;
        put_content(out, self.bytes.as_slice())
    }
}

impl TableEntry for TagEntry {
    ghost use Rattle.image_form.specs.Encoding.{encode_tag};
    ghost use Rattle.image_form.specs.Fitting.{TagFits};

    ghost encode = { encode_tag };

    ghost fits = { TagFits };

    fn after(&self, room: usize) -> Option<usize> {
        let room = after_string(room, self.name.as_slice())?;
        let room = after_number(room, self.pages)?;
        let room = after_number(room, right_code(self.right))?;
        after_content(room, self.content.as_slice())
    }

    fn put(&self, out: &mut Vec<u8>) -> Result<(), NoMemory> {
        put_string(out, self.name.as_slice())?;
        put_number(out, self.pages)?;
        put_number(out, right_code(self.right))?;
        put_content(out, self.content.as_slice())
    }
}

impl TableEntry for FdEntry {
    ghost use Rattle.image_form.specs.Encoding.{encode_fd};
    ghost use Rattle.image_form.specs.Fitting.{FdFits};

    ghost encode = { encode_fd };

    ghost fits = { FdFits };

    fn after(&self, room: usize) -> Option<usize> {
        let room = after_string(room, self.name.as_slice())?;
        let room = after_number(room, kind_code(self.kind))?;
        let room = after_number(room, bits_code(self.bits))?;
        after_content(room, self.content.as_slice())
    }

    fn put(&self, out: &mut Vec<u8>) -> Result<(), NoMemory> {
        put_string(out, self.name.as_slice())?;
        put_number(out, kind_code(self.kind))?;
        put_number(out, bits_code(self.bits))?;
        put_content(out, self.content.as_slice())
    }
}

impl TableEntry for FileEntry {
    ghost use Rattle.image_form.specs.Encoding.{encode_file};
    ghost use Rattle.image_form.specs.Fitting.{FileFits};

    ghost encode = { encode_file };

    ghost fits = { FileFits };

    fn after(&self, room: usize) -> Option<usize> {
        let room = after_string(room, self.path.as_slice())?;
        let room = after_number(room, self.owner)?;
        let room = after_number(room, self.mode)?;
        let room = after_number(room, kind_code(self.kind))?;
        after_content(room, self.content.as_slice())
    }

    fn put(&self, out: &mut Vec<u8>) -> Result<(), NoMemory> {
        put_string(out, self.path.as_slice())?;
        put_number(out, self.owner)?;
        put_number(out, self.mode)?;
        put_number(out, kind_code(self.kind))?;
        put_content(out, self.content.as_slice())
    }
}
