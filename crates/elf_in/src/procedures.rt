//! The procedures of an ELF file.

ghost use Rattle.std.specs.Prelude.{◌≡◌, ◌||◌, [], fold, option_copied, IfOk, OnOk};
ghost use Rattle.std.specs.List.{filter_map};
ghost use Rattle.std.specs.Ordering.{nat_cmp};
ghost use Rattle.std.specs.Cmp.Lexicographic.{slice_cmp};
ghost use Rattle.std.specs.BTreeSet.{contains, contains_by};
ghost use Rattle.elf_in.specs.Procedures as defined;
ghost use Rattle.elf_in.specs.Symbols as symbols;
ghost use Rattle.elf_in.specs.Views.{symbols_view};

use crate::headers::{Symbol, is_function};
use crate::symbols::{SymbolTable, front_of_name};
use image_form::TextSpan;
use stable_sort::{Sortable, sort};
use std::alloc::Global;
use std::cmp::Ordering;
use std::collections::BTreeSet;
use wedge_base::{Bytes, NoMemory, Procedure, begins_at, is_name};

/// The names that may be added for the base of the text and for the entry.
const TEXT_START: &str = "text.start";

const ENTRY_START: &str = "entry.start";

/// A function of the text whose name may be that of a procedure.
#[derive(Debug, Drop)]
pub(crate) struct Candidate {
    pub address: u32,
    pub name: Bytes,
}

impl Sortable for Candidate {
    ghost use Rattle.elf_in.specs.Procedures.{candidate_before};
    ghost use Rattle.elf_in.specs.Orders.{candidate_order};

    ghost comes_before = { candidate_before };

    fn compare(&self, other: &Candidate) -> Ordering {
        self.address
            .cmp(&other.address)
            .then(self.name.as_slice().cmp(other.name.as_slice()))
    }

    ghost is_order = { candidate_order };
}

/// Whether a symbol's name may be that of a procedure.
fn is_usable(name: &[u8]) -> bool
    ensures { result ≡ defined.is_usable name.now }
{
    is_name(name) && name != TEXT_START.as_bytes() && name != ENTRY_START.as_bytes()
}

/// The name that begins at an offset, if it may be that of a procedure.
fn usable_name(names: &[u8], offset: u32) -> Option<&[u8]>
    ensures { option_copied result ≡ defined.usable (symbols.name_at names.now offset) }
{
    let name = front_of_name(names, offset);
    if is_usable(name) { Some(name) } else { None }
}

/// The candidate that a symbol is, if it is one.
fn candidate_of(
    alloc: Global,
    text: TextSpan,
    names: &[u8],
    symbol: &Symbol,
) -> Result<Option<Candidate>, NoMemory>
    ensures { IfOk result
        (λ c. c ≡ defined.candidate text.base text.count names.now symbol.now) }
{
    if !is_function(symbol) || !text.has(symbol.value) {
        return Ok(None);
    }
    match usable_name(names, symbol.name) {
        Some(name) => Ok(Some(Candidate {
            address: symbol.value,
            name: Bytes::from_slice(alloc, name)?,
        })),
        None => Ok(None),
    }
}

/// The candidates, in the order of their symbols.
fn unsorted_candidates(
    alloc: Global,
    text: TextSpan,
    table: &SymbolTable<'_>,
) -> Result<Vec<Candidate>, NoMemory>
    ensures { let t = symbols_view table.now in IfOk result (λ v.
        v.items ≡ filter_map (defined.candidate text.base text.count t.names) t.symbols) }
{
    let mut candidates = Vec::new(alloc);
    for symbol in &table.symbols {
        if let Some(candidate) = candidate_of(alloc, text, table.names, symbol)? {
            candidates.push(candidate)?;
        }
    }
    Ok(candidates)
}

/// The candidates, by address and then by name.
#[tactic(auto, unfolding(crate::specs::Procedures::candidates))]
fn candidates(
    alloc: Global,
    text: TextSpan,
    table: &SymbolTable<'_>,
) -> Result<Vec<Candidate>, NoMemory>
    ensures { IfOk result (λ v.
        v.items ≡ defined.candidates text.base text.count (symbols_view table.now)) }
{
    let mut candidates = unsorted_candidates(alloc, text, table)?;
    sort(&mut candidates)?;
    Ok(candidates)
}

/// Whether a candidate's address or name is among those in use.
fn is_in_use(addresses: &BTreeSet<u32>, names: &BTreeSet<&[u8]>, candidate: &Candidate) -> bool
    ensures { result ≡ (contains nat_cmp addresses.now candidate.now.address
        || contains_by (λ k. slice_cmp nat_cmp candidate.now.name k.now) names.now) }
{
    addresses.contains(&candidate.address) || names.contains(candidate.name.as_slice())
}

/// The candidates whose addresses and names are not in use, taken one after another.
fn taken(alloc: Global, candidates: &[Candidate]) -> Result<Vec<Procedure>, NoMemory>
    ensures { IfOk result (λ v. v.items ≡ fold defined.with_candidate [] candidates.now) }
{
    let mut procedures = Vec::new(alloc);
    let mut addresses = BTreeSet::new(alloc);
    let mut names = BTreeSet::new(alloc);
    for candidate in candidates {
        if is_in_use(&addresses, &names, candidate) {
            continue;
        }
        let name = candidate.name.as_slice();
        addresses.insert(candidate.address)?;
        names.insert(name)?;
        procedures.push(Procedure {
            name: Bytes::from_slice(alloc, name)?,
            address: candidate.address,
        })?;
    }
    Ok(procedures)
}

/// Adds a procedure of a given name at an address where none begins.
fn add_start(
    alloc: Global,
    procedures: &mut Vec<Procedure>,
    name: &str,
    address: u32,
) -> Result<(), NoMemory>
    ensures { OnOk result (
        procedures.new.items ≡ defined.with_start name.now address procedures.old.items) }
{
    if !begins_at(procedures, address) {
        procedures.push(Procedure {
            name: Bytes::from_slice(alloc, name.as_bytes())?,
            address,
        })?;
    }
    Ok(())
}

/// The procedures, by name.
#[tactic(auto, unfolding(crate::specs::Procedures::procedures_of))]
pub(crate) fn procedures_of(
    alloc: Global,
    text: TextSpan,
    entry: u32,
    table: &SymbolTable<'_>,
) -> Result<Vec<Procedure>, NoMemory>
    ensures { IfOk result (λ v.
        v.items ≡ defined.procedures_of text.base text.count entry (symbols_view table.now)) }
{
    let candidates = candidates(alloc, text, table)?;
    let mut procedures = taken(alloc, &candidates)?;
    add_start(alloc, &mut procedures, TEXT_START, text.base)?;
    add_start(alloc, &mut procedures, ENTRY_START, entry)?;
    sort(&mut procedures)?;
    Ok(procedures)
}
