//! Whether a path is under another.

ghost use Rattle.std.specs.Prelude.{◌≡◌, ◌∷◌, [], ◌<◌, ◌≤◌, length, IfSome, IfNone};
ghost use Rattle.wedge_base.specs.Paths as paths;
ghost use Rattle.grant_sheet.specs.Paths as parts;

/// Whether a path is a root directory or is under it: the root's parts are a prefix of the path's.
/// It allocates nothing.
pub fn is_under(root: &[u8], path: &[u8]) -> bool
    ensures { result ≡ paths.under root.now path.now }
{
    let mut root_left = root;
    let mut path_left = path;
    loop {
        let Some((part, root_others)) = split_part(root_left) else {
            return true;
        };
        let Some((own, path_others)) = split_part(path_left) else {
            return false;
        };
        if part != own {
            return false;
        }
        root_left = root_others;
        path_left = path_others;
    }
}

/// The first part of a path and what comes after it, or none where it has no part.
#[tactic(auto, using(crate::proofs::FirstPart::parts_split, crate::proofs::FirstPart::no_parts))]
fn split_part(path: &[u8]) -> Option<(&[u8], &[u8])>
    ensures some { IfSome result (λ r.
        paths.parts_of path.now ≡ r.0.now ∷ paths.parts_of r.1.now) }
    ensures shorter { IfSome result (λ r. length r.1.now < length path.now) }
    ensures none { IfNone result (paths.parts_of path.now ≡ []) }
{
    let (_, rest) = path.split_at(slashes_before(path));
    let end = part_length(rest);
    if end == 0 {
        return None;
    }
    let (part, others) = rest.split_at(end);
    Some((part, others))
}

/// How many slashes a path begins with.
fn slashes_before(path: &[u8]) -> usize
    ensures is { result ≡ parts.slashes_before path.now }
    ensures within { result ≤ length path.now }
{
    for (i, byte) in path.iter().enumerate() {
        if *byte != b'/' {
            return i;
        }
    }
    path.len()
}

/// How many bytes are before the first slash.
fn part_length(path: &[u8]) -> usize
    ensures is { result ≡ parts.part_length path.now }
    ensures within { result ≤ length path.now }
{
    for (i, byte) in path.iter().enumerate() {
        if *byte == b'/' {
            return i;
        }
    }
    path.len()
}
