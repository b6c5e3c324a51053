//! The entries that tables name.

ghost use Rattle.std.specs.Prelude.{◌≡◌, map, IfOk};
ghost use Rattle.toml.specs.View.{table_view};
ghost use Rattle.wedge_base.specs.Bytes.{padded_to_words};
ghost use Rattle.part_toml.specs.Parts as parts;
ghost use Rattle.part_toml.specs.Values as values;
ghost use Rattle.part_toml.specs.Views.{AreEntries};
ghost use Rattle.stable_sort.specs.Sorting as sorting;

use crate::keys::Key;
use crate::tables::{has, number_at, tables_at, text_at};
use crate::values::{bits_named, bytes_of, right_named, stream_named};
use stable_sort::{Sortable, sort};
use std::alloc::Global;
use std::cmp::Ordering;
use toml::Table;
use wedge_base::{
    Bytes, FdBits, FdEntry, FileEntry, Items, MemoryRange, NoMemory, StreamKind, TagEntry,
};

/// A range of memory, and the name that the text may use for where it begins.
#[derive(Debug, Drop)]
pub(crate) struct NamedRange {
    pub name: Bytes,
    pub range: MemoryRange,
}

/// The entries that the tables of a partition name, in their order.
#[derive(Drop)]
pub(crate) struct Entries {
    pub ranges: Vec<NamedRange>,
    pub tags: Vec<TagEntry>,
    pub fds: Vec<FdEntry>,
    pub files: Vec<FileEntry>,
}

/// What a table names.
pub(crate) trait Entry: Sortable {
    ghost use Rattle.std.specs.Prelude.{◌≡◌, IfOk};
    ghost use Rattle.toml.specs.Data.{Members};
    ghost use Rattle.toml.specs.View.{table_view};

    ghost entry_of: { Members → Self };

    /// The entry that a table names.
    fn read(alloc: Global, table: &Table) -> Result<Self, NoMemory>
        ensures { IfOk result (λ e. e ≡ entry_of (table_view table.now)) };
}

/// The entries that the tables of the array at a key name.
fn entries_at<T: Entry + Drop>(alloc: Global, top: &Table, key: Key) -> Result<Vec<T>, NoMemory>
    ensures { IfOk result (λ v. v.items
        ≡ map T.entry_of (values.tables_at key (table_view top.now))) }
{
    let tables = tables_at(alloc, top, key)?;
    let mut entries = Vec::new(alloc);
    for table in &tables {
        entries.push(T::read(alloc, table)?)?;
    }
    Ok(entries)
}

/// The entries that the tables of the array at a key name, in their order.
fn sorted_entries<T: Entry + Drop>(alloc: Global, top: &Table, key: Key) -> Result<Vec<T>, NoMemory>
    ensures { IfOk result (λ v. v.items
        ≡ sorting.sorted T.comes_before
        (map T.entry_of (values.tables_at key (table_view top.now)))) }
{
    let mut entries = entries_at(alloc, top, key)?;
    sort(&mut entries)?;
    Ok(entries)
}

/// A copy of the string at a key.
pub(crate) fn copy_at(alloc: Global, table: &Table, key: Key) -> Result<Bytes, NoMemory>
    ensures { IfOk result (λ b. b ≡ values.text_at key (table_view table.now)) }
{
    Bytes::from_slice(alloc, text_at(table, key).as_bytes())
}

/// The bytes that a table gives, as a string or in hexadecimal digits.
fn content_at(alloc: Global, table: &Table) -> Result<Bytes, NoMemory>
    ensures { IfOk result (λ b. b ≡ parts.table_content (table_view table.now)) }
{
    if has(table, Key::Text) {
        copy_at(alloc, table, Key::Text)
    } else {
        bytes_of(alloc, text_at(table, Key::Hex).as_bytes())
    }
}

/// Bytes, and zeros up to a multiple of four.
#[tactic(auto, unfolding(wedge_base::specs::Bytes::zeros))]
fn pad_to_words(bytes: Bytes) -> Result<Bytes, NoMemory>
    ensures { IfOk result (λ b. b ≡ padded_to_words bytes) }
{
    let mut bytes = bytes.into_vec();
    let len = bytes.len();
    bytes.resize(len + (4 - len % 4) % 4, 0)?;
    Ok(Items::new(bytes))
}

/// The kind of the stream that a table names.
fn stream_at(table: &Table) -> StreamKind
    ensures { result ≡ parts.stream_at (table_view table.now) }
{
    stream_named(text_at(table, Key::Kind)).unwrap_or(StreamKind::Source)
}

/// The entries that the tables of a partition name, in their order.
#[tactic(auto, unfolding(crate::specs::Parts::declared_ranges, crate::specs::Parts::tags, crate::specs::Parts::fds, crate::specs::Parts::files))]
pub(crate) fn all_entries(alloc: Global, top: &Table) -> Result<Entries, NoMemory>
    ensures { IfOk result (λ e. AreEntries e (table_view top.now)) }
{
    let ranges = sorted_entries(alloc, top, Key::Data)?;
    let tags = sorted_entries(alloc, top, Key::Tag)?;
    let fds = sorted_entries(alloc, top, Key::Fd)?;
    let files = sorted_entries(alloc, top, Key::File)?;
    Ok(Entries {
        ranges,
        tags,
        fds,
        files,
    })
}

impl Sortable for NamedRange {
    ghost use Rattle.part_toml.specs.Parts.{range_before};
    ghost use Rattle.part_toml.specs.Orders.{range_order};

    ghost comes_before = { range_before };

    fn compare(&self, other: &NamedRange) -> Ordering {
        self.range.base.cmp(&other.range.base)
    }

    ghost is_order = { range_order };
}

impl Entry for NamedRange {
    ghost use Rattle.part_toml.specs.Parts.{range_of_table};

    ghost entry_of = { range_of_table };

    fn read(alloc: Global, table: &Table) -> Result<NamedRange, NoMemory> {
        let name = copy_at(alloc, table, Key::Name)?;
        let content = content_at(alloc, table)?;
        let bytes = pad_to_words(content)?;
        let base = number_at(table, Key::Base, 0);
        Ok(NamedRange {
            name,
            range: MemoryRange { base, bytes },
        })
    }
}

impl Entry for TagEntry {
    ghost use Rattle.part_toml.specs.Parts.{tag_of};

    ghost entry_of = { tag_of };

    fn read(alloc: Global, table: &Table) -> Result<TagEntry, NoMemory> {
        let name = copy_at(alloc, table, Key::Name)?;
        let content = content_at(alloc, table)?;
        Ok(TagEntry {
            name,
            pages: number_at(table, Key::Pages, 0),
            right: right_named(text_at(table, Key::Right)).unwrap_or(None),
            content,
        })
    }
}

impl Entry for FdEntry {
    ghost use Rattle.part_toml.specs.Parts.{fd_of};

    ghost entry_of = { fd_of };

    fn read(alloc: Global, table: &Table) -> Result<FdEntry, NoMemory> {
        let name = copy_at(alloc, table, Key::Name)?;
        let content = content_at(alloc, table)?;
        Ok(FdEntry {
            name,
            kind: stream_at(table),
            bits: bits_named(text_at(table, Key::Bits)).unwrap_or(NO_BITS),
            content,
        })
    }
}

const NO_BITS: FdBits = FdBits {
    read: false,
    append: false,
};

impl Entry for FileEntry {
    ghost use Rattle.part_toml.specs.Parts.{file_of_table};

    ghost entry_of = { file_of_table };

    fn read(alloc: Global, table: &Table) -> Result<FileEntry, NoMemory> {
        let path = copy_at(alloc, table, Key::Path)?;
        let content = content_at(alloc, table)?;
        Ok(FileEntry {
            path,
            owner: number_at(table, Key::Owner, 0),
            mode: number_at(table, Key::Mode, 0),
            kind: stream_at(table),
            content,
        })
    }
}
