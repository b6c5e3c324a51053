//! The value at a key of a table.

ghost use Rattle.std.specs.Prelude.{◌≡◌, map, option_map, IfOk};
ghost use Rattle.toml.specs.View.{view, items_view, table_view};
ghost use Rattle.part_toml.specs.Values as values;

use crate::keys::Key;
use crate::values::number_of;
use std::alloc::Global;
use toml::{Table, Value};
use wedge_base::NoMemory;

/// The value at a key.
pub(crate) fn at<'a>(table: &'a Table, key: Key) -> Option<&'a Value>
    ensures { option_map (λ v. view v.now) result ≡ values.value_at key (table_view table.now) }
{
    table.get(key.name())
}

pub(crate) fn has(table: &Table, key: Key) -> bool
    ensures { result ≡ values.has_key key (table_view table.now) }
{
    at(table, key).is_some()
}

/// The number at a key, or another where there is none.
pub(crate) fn number_at(table: &Table, key: Key, other: u32) -> u32
    ensures { result ≡ values.number_at_key key other (table_view table.now) }
{
    match at(table, key) {
        Some(value) => number_of(value).unwrap_or(other),
        None => other,
    }
}

/// The string at a key, or an empty one where there is none.
pub(crate) fn text_at<'a>(table: &'a Table, key: Key) -> &'a str
    ensures { result.now ≡ values.text_at key (table_view table.now) }
{
    match at(table, key) {
        Some(value) => match value.as_str() {
            Some(text) => text,
            None => "",
        },
        None => "",
    }
}

/// Those of some values that are tables.
fn tables_of<'a>(alloc: Global, items: &'a [Value]) -> Result<Vec<&'a Table>, NoMemory>
    ensures { IfOk result (λ v. map (λ t. table_view t.now) v.items
        ≡ values.tables_of (items_view items.now)) }
{
    let mut tables = Vec::new(alloc);
    for item in items {
        if let Some(table) = item.as_table() {
            tables.push(table)?;
        }
    }
    Ok(tables)
}

/// The tables of the array at a key, or none where there is no array.
pub(crate) fn tables_at<'a>(
    alloc: Global,
    table: &'a Table,
    key: Key,
) -> Result<Vec<&'a Table>, NoMemory>
    ensures { IfOk result (λ v. map (λ t. table_view t.now) v.items
        ≡ values.tables_at key (table_view table.now)) }
{
    match at(table, key) {
        Some(value) => match value.as_array() {
            Some(items) => tables_of(alloc, items),
            None => Ok(Vec::new(alloc)),
        },
        None => Ok(Vec::new(alloc)),
    }
}
