//! Paths under a root.

ghost use Rattle.std.specs.Prelude.{not, ◌≡◌, ◌↔◌, Some, Err, true, false, [], ◌++◌, map, IfOk};
ghost use Rattle.wedge_base.specs.Names.{same};
ghost use Rattle.wedge_base.specs.Paths as paths;

use crate::fault::PathFault;
use std::alloc::Global;
use wedge_base::{Bytes, NoMemory, PathText, are_printed};

/// The most bytes of a path.
const MOST_BYTES: usize = 256;

/// The path that a text names under a root: the parts of the root, and then those of the text, which are
/// its pieces between slashes but the empty ones and `.`, where `..` takes away the part added before it.
/// So it lies under the root, and is canonical. `Bad` exactly where the text is not 1 to 256 bytes from 0x21
/// to 0x7E, the first of them a `/`.
#[tactic(auto, using(crate::proofs::Walks::under_resolved, crate::proofs::CanonicalPaths::canonical_resolved))]
pub fn resolve(alloc: Global, root: &PathText, path: &[u8]) -> Result<PathText, PathFault>
    ensures ok { IfOk result (λ p. Some p ≡ paths.resolve root.now path.now) }
    ensures under { IfOk result (λ p. paths.under root.now p ≡ true) }
    ensures bad { (result ≡ Err PathFault.Bad) ↔ (paths.is_path path.now ≡ false) }
{
    if !is_path(path) {
        return Err(PathFault::Bad);
    }
    let text = under_root(alloc, root.as_slice(), path)?;
    Ok(PathText::new(text))
}

/// The text of the parts of a root and those that a path adds to them.
fn under_root(alloc: Global, root: &[u8], path: &[u8]) -> Result<Bytes, NoMemory>
    ensures { IfOk result (λ t. t ≡ paths.text_of
        (paths.parts_of root.now ++ paths.resolve_parts [] (paths.pieces path.now))) }
{
    let mut parts = parts_of(alloc, root)?;
    let added = walked(alloc, path)?;
    parts.extend_from_slice(added.as_slice())?;
    text_of(alloc, parts.as_slice())
}

/// Whether a text has the form of a path.
fn is_path(path: &[u8]) -> bool
    ensures { result ≡ paths.is_path path.now }
{
    match path {
        [] => false,
        [first, others @ ..] => {
            *first == b'/' && others.len() < MOST_BYTES && are_printed(others)
        }
    }
}

/// The pieces of a text between its slashes.
fn pieces_of(alloc: Global, path: &[u8]) -> Result<Vec<&[u8]>, NoMemory>
    ensures { IfOk result (λ v. map (λ p. p.now) v.items ≡ paths.pieces path.now) }
{
    let pieces = path.split(|b| *b == b'/').collect(alloc)?;
    Ok(pieces)
}

/// Whether a piece is not empty.
fn is_part(piece: &[u8]) -> bool
    ensures { result ≡ not (same piece.now []) }
{
    !piece.is_empty()
}

/// The parts of a root: its pieces that are not empty.
fn parts_of(alloc: Global, root: &[u8]) -> Result<Vec<&[u8]>, NoMemory>
    ensures { IfOk result (λ v. map (λ p. p.now) v.items ≡ paths.parts_of root.now) }
{
    let parts = root
        .split(|b| *b == b'/')
        .filter(|piece| is_part(piece))
        .collect(alloc)?;
    Ok(parts)
}

/// The parts that a path adds to its root.
fn walked(alloc: Global, path: &[u8]) -> Result<Vec<&[u8]>, NoMemory>
    ensures { IfOk result (λ v. map (λ p. p.now) v.items
        ≡ paths.resolve_parts [] (paths.pieces path.now)) }
{
    let pieces = pieces_of(alloc, path)?;
    let mut kept: Vec<&[u8]> = Vec::new(alloc);
    for piece in &pieces {
        if piece.is_empty() || *piece == b".".as_slice() {
            continue;
        }
        if *piece == b"..".as_slice() {
            let _ = kept.pop();
        } else {
            kept.push(*piece)?;
        }
    }
    Ok(kept)
}

/// The text of parts: each after a slash, or a slash alone where there are none.
fn text_of(alloc: Global, parts: &[&[u8]]) -> Result<Bytes, NoMemory>
    ensures { IfOk result (λ t. t ≡ paths.text_of (map (λ p. p.now) parts.now)) }
{
    let mut text = Vec::new(alloc);
    for part in parts {
        text.push(b'/')?;
        text.extend_from_slice(part)?;
    }
    if text.is_empty() {
        text.push(b'/')?;
    }
    Ok(Bytes::new(text))
}
