//! Reading the table of procedures.

ghost use Rattle.std.specs.Prelude.{◌≡◌, ◌+◌, ◌*◌, ◌≤◌, ◌%◌, ◌==◌, ◌&&◌, ℕ, [], length, nat_le, nat_lt};
ghost use Rattle.std.specs.Ordering.{nat_cmp};
ghost use Rattle.std.specs.BTreeSet.{contains};
ghost use Rattle.wedge_base.specs.Images as images;
ghost use Rattle.wedge_base.specs.Maps.{is_among};
ghost use Rattle.image_form.specs.Rules.{addresses, most_procedures};
ghost use Rattle.image_form.specs.declared.fault.Why.TheVariants as why;
ghost use Rattle.image_form.specs.Reading as reading;
ghost use Rattle.image_form.specs.Reading.{IsImageAnswer, last_of};

use crate::fault::{ImageError, Why};
use crate::fields::{limited, name_after, number, refused};
use crate::text_span::TextSpan;
use std::alloc::Global;
use std::collections::BTreeSet;
use wedge_base::{Bytes, Procedure, begins_at};

/// The most procedures of an image.
const MOST_PROCEDURES: u32 = 4096;

/// The name of the last procedure, or no bytes.
fn last_name(front: &[Procedure]) -> &[u8]
    ensures { result.now ≡ last_of (λ p. p.name) [] front.now }
{
    match front.last() {
        Some(procedure) => procedure.name.as_slice(),
        None => &[],
    }
}

/// A procedure, where those before it are known, and their addresses.
#[tactic(auto, unfolding(crate::specs::Reading::checked_at, crate::specs::Reading::address_at, crate::specs::Reading::procedure_at))]
fn procedure<'a>(
    alloc: Global,
    text: TextSpan,
    front: &[Procedure],
    seen: &BTreeSet<u32>,
    total: usize,
    bytes: &'a [u8],
) -> Result<(Procedure, &'a [u8]), ImageError>
    requires { (q : ℕ) → contains nat_cmp seen.now q ≡ is_among (addresses front.now) q }
    ensures { IsImageAnswer (λ x. (x.0, x.1.now)) result
        (reading.procedure_at text.base text.count total front.now bytes.now) }
{
    let (name, after) = name_after(last_name(front), total, bytes)?;
    let (address, rest) = number(total, after)?;
    if !text.has(address) {
        return Err(refused(total, after, Why::Range));
    }
    if seen.contains(&address) {
        return Err(refused(total, after, Why::Overlap));
    }
    let name = Bytes::from_slice(alloc, name)?;
    Ok((Procedure { name, address }, rest))
}

/// So many procedures.
fn procedure_list(
    alloc: Global,
    text: TextSpan,
    count: u32,
    total: usize,
    bytes: &[u8],
) -> Result<(Vec<Procedure>, &[u8]), ImageError>
    ensures { IsImageAnswer (λ x. (x.0.items, x.1.now)) result
        (reading.entries_at (reading.procedure_at text.base text.count total) count []
        bytes.now) }
{
    let mut procedures = Vec::new(alloc);
    let mut seen = BTreeSet::new(alloc);
    let mut rest = bytes;
    for _ in 0..count {
        let (procedure, after) = procedure(alloc, text, &procedures, &seen, total, rest)?;
        seen.insert(procedure.address)?;
        procedures.push(procedure)?;
        rest = after;
    }
    Ok((procedures, rest))
}

/// The table of procedures.
#[tactic(auto, unfolding(crate::specs::Reading::table_at, crate::specs::Reading::procedures_at))]
pub(crate) fn procedures(
    alloc: Global,
    text: TextSpan,
    total: usize,
    bytes: &[u8],
) -> Result<(Vec<Procedure>, &[u8]), ImageError>
    ensures { IsImageAnswer (λ x. (x.0.items, x.1.now)) result
        (reading.procedures_at text.base text.count total bytes.now) }
{
    let (count, after) = limited(MOST_PROCEDURES, total, bytes)?;
    let (procedures, rest) = procedure_list(alloc, text, count, total, after)?;
    if !begins_at(&procedures, text.base) {
        return Err(refused(total, bytes, Why::Range));
    }
    Ok((procedures, rest))
}

/// The address of the procedure at which the root starts.
#[tactic(auto, unfolding(crate::specs::Reading::checked_at))]
pub(crate) fn entry<'a>(
    procedures: &[Procedure],
    total: usize,
    bytes: &'a [u8],
) -> Result<(u32, &'a [u8]), ImageError>
    ensures { IsImageAnswer (λ x. (x.0, x.1.now)) result
        (reading.checked_at (images.begins_at procedures.now) why.Range total bytes.now) }
{
    let (entry, rest) = number(total, bytes)?;
    if !begins_at(procedures, entry) {
        return Err(refused(total, bytes, Why::Range));
    }
    Ok((entry, rest))
}
