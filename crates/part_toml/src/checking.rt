//! What is wrong with the tables of a partition.

ghost use Rattle.std.specs.Prelude.{◌≡◌, map, fold, option_copied, IfOk, if◌then◌else◌};
ghost use Rattle.toml.specs.View.{table_view};
ghost use Rattle.image_form.specs.Forms as forms;
ghost use Rattle.part_toml.specs.Faults as faults;
ghost use Rattle.part_toml.specs.Keys as keys;
ghost use Rattle.part_toml.specs.Values as values;
ghost use Rattle.part_toml.specs.Partition.{Finds};

use crate::fault::PartFault;
use crate::keys::{Field, Key, Part};
use crate::tables::{at, has, tables_at};
use crate::values::fits;
use stable_sort::byte_order;
use std::alloc::Global;
use toml::Table;
use wedge_base::{Bytes, Items, NoMemory};

/// Whether the first string is before the second, in byte order.
fn is_below(a: &[u8], b: &[u8]) -> bool
    ensures { result ≡ forms.is_below a.now b.now }
{
    byte_order(a, b).is_lt()
}

/// The lesser of two names.
fn lesser<'a>(best: Option<&'a str>, name: &'a str) -> Option<&'a str>
    ensures { option_copied result ≡ faults.lesser (option_copied best.entry) name.now }
{
    match best {
        Some(other) if !is_below(name.as_bytes(), other.as_bytes()) => Some(other),
        _ => Some(name),
    }
}

/// The lesser of two names, if the second is that of a fault.
fn lesser_if<'a>(fault: bool, best: Option<&'a str>, name: &'a str) -> Option<&'a str>
    ensures { option_copied result ≡
        (if fault then faults.lesser
        (option_copied best.entry) name.now else option_copied best.entry) }
{
    if fault { lesser(best, name) } else { best }
}

/// Whether a key must be there and is not.
fn is_missing(table: &Table, field: Field) -> bool
    ensures { result ≡ faults.is_missing (table_view table.now) field }
{
    field.required && !has(table, field.key)
}

/// The least of a name and of those of keys that must be there and are not.
fn least_missing<'a>(first: Option<&'a str>, fields: &[Field], table: &Table) -> Option<&'a str>
    ensures { option_copied result ≡ fold faults.lesser (option_copied first.entry)
        (faults.missing fields.now (table_view table.now)) }
{
    let mut best = first;
    for field in fields {
        best = lesser_if(is_missing(table, *field), best, field.key.name());
    }
    best
}

/// Whether a name is that of a key that a table may have.
fn is_known(fields: &[Field], name: &str) -> bool
    ensures { result ≡ faults.is_field_name fields.now name.now }
{
    fields.iter().any(|field| field.key.name() == name)
}

/// The least of a name and of those keys that a table may not have.
fn least_unknown<'a>(first: Option<&'a str>, fields: &[Field], table: &'a Table) -> Option<&'a str>
    ensures { option_copied result ≡ fold faults.lesser (option_copied first.entry)
        (faults.unknown fields.now (table_view table.now)) }
{
    let mut best = first;
    for key in table.keys() {
        let name = key.as_str();
        best = lesser_if(!is_known(fields, name), best, name);
    }
    best
}

/// Whether a table has not the keys of content that it may have: data have one of `text` and `hex`,
/// and the others at most one.
fn is_content_wrong(part: Part, text: bool, hex: bool) -> bool
    ensures { result ≡ faults.is_content_wrong part text hex }
{
    match part {
        Part::Top | Part::Joined => false,
        Part::Data => text == hex,
        _ => text && hex,
    }
}

/// The least name of a key that is missing or unknown, or `hex` where content is given twice, or
/// not at all in data.
fn first_key_fault<'a>(part: Part, table: &'a Table) -> Option<&'a str>
    ensures { option_copied result ≡ faults.first_key_fault part (table_view table.now) }
{
    let fields = part.fields();
    let wrong = is_content_wrong(part, has(table, Key::Text), has(table, Key::Hex));
    let doubled = lesser_if(wrong, None, Key::Hex.name());
    let missing = least_missing(doubled, fields, table);
    least_unknown(missing, fields, table)
}

/// Whether a key is there with a value that is not of its kind.
fn is_wrong(table: &Table, field: Field) -> bool
    ensures { result ≡ faults.is_wrong (table_view table.now) field }
{
    match at(table, field.key) {
        Some(value) => !fits(field.kind, value),
        None => false,
    }
}

/// The least name of a key whose value is not of its kind.
fn first_kind_fault(part: Part, table: &Table) -> Option<&'static str>
    ensures { option_copied result ≡ faults.first_kind_fault part (table_view table.now) }
{
    let fields = part.fields();
    let mut best = None;
    for field in fields {
        best = lesser_if(is_wrong(table, *field), best, field.key.name());
    }
    best
}

/// The name of a key after that of its table.
fn full_name(alloc: Global, part: Part, name: &str) -> Result<Bytes, NoMemory>
    ensures { IfOk result (λ b. b ≡ faults.full_name part name.now) }
{
    let mut full = Vec::from_slice(alloc, part.prefix().as_bytes())?;
    full.extend_from_slice(name.as_bytes())?;
    Ok(Items::new(full))
}

/// Rejects a table that is invalid: its keys first, and then their values.
#[tactic(auto, unfolding(crate::specs::Faults::table_fault))]
fn check_table(alloc: Global, part: Part, table: &Table) -> Result<(), PartFault>
    ensures { Finds result (faults.table_fault part (table_view table.now)) }
{
    if let Some(name) = first_key_fault(part, table) {
        let name = full_name(alloc, part, name)?;
        return Err(PartFault::Key { name });
    }
    if let Some(name) = first_kind_fault(part, table) {
        let name = full_name(alloc, part, name)?;
        return Err(PartFault::Kind { name });
    }
    Ok(())
}

/// Rejects the first of some tables that is invalid.
fn check_all(alloc: Global, part: Part, tables: &[&Table]) -> Result<(), PartFault>
    ensures { Finds result (faults.tables_fault part (map (λ t. table_view t.now) tables.now)) }
{
    for table in tables {
        check_table(alloc, part, table)?;
    }
    Ok(())
}

/// Rejects the first table of an array that is invalid.
fn check_array(alloc: Global, part: Part, top: &Table, key: Key) -> Result<(), PartFault>
    ensures { Finds result (faults.tables_fault part (values.tables_at key (table_view top.now))) }
{
    let tables = tables_at(alloc, top, key)?;
    check_all(alloc, part, &tables)
}

/// Rejects a document whose top table, of a kind, or one of whose other tables, is invalid.
#[tactic(auto, unfolding(crate::specs::Faults::document_fault))]
pub(crate) fn check_document(alloc: Global, part: Part, top: &Table) -> Result<(), PartFault>
    ensures { Finds result (faults.document_fault part (table_view top.now)) }
{
    check_table(alloc, part, top)?;
    check_array(alloc, Part::Data, top, Key::Data)?;
    check_array(alloc, Part::Tag, top, Key::Tag)?;
    check_array(alloc, Part::Fd, top, Key::Fd)?;
    check_array(alloc, Part::File, top, Key::File)
}
