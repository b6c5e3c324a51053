//! The form of paths, and the order of strings.

ghost use Rattle.std.specs.Prelude.{◌≡◌};
ghost use Rattle.image_form.specs.Forms as forms;

use wedge_base::is_canonical;

/// The most bytes of a path.
const MOST_PATH_BYTES: usize = 255;

/// Whether a string is a canonical path of at least one part.
#[tactic(auto, unfolding(crate::specs::Forms::is_entry_path))]
pub(crate) fn is_path(text: &[u8]) -> bool
    ensures { result ≡ forms.is_entry_path text.now }
{
    2 <= text.len() && text.len() <= MOST_PATH_BYTES && is_canonical(text)
}

/// Whether a string is a root directory.
#[tactic(auto, unfolding(crate::specs::Forms::is_root))]
pub(crate) fn is_root(text: &[u8]) -> bool
    ensures { result ≡ forms.is_root text.now }
{
    1 <= text.len() && text.len() <= MOST_PATH_BYTES && is_canonical(text)
}

/// Whether the first string is before the second, in byte order.
#[tactic(auto, unfolding(crate::specs::Forms::is_below))]
pub(crate) fn is_below(a: &[u8], b: &[u8]) -> bool
    ensures { result ≡ forms.is_below a.now b.now }
{
    a.cmp(b).is_lt()
}
