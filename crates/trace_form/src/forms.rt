//! The forms of paths and addresses in items.

ghost use Rattle.std.specs.Prelude.{◌≡◌};
ghost use Rattle.std.specs.List.{list_all};
ghost use Rattle.trace_form.specs.Forms as forms;

use wedge_base::is_canonical;

/// The most bytes of a file's path.
const MOST_PATH_BYTES: usize = 255;

/// Whether a text is a file's path.
#[tactic(auto, unfolding(crate::specs::Forms::is_file_path))]
pub(crate) fn is_file_path(text: &[u8]) -> bool
    ensures { result ≡ forms.is_file_path text.now }
{
    2 <= text.len() && text.len() <= MOST_PATH_BYTES && is_canonical(text)
}

fn all_are_hex_digits(text: &[u8]) -> bool
    ensures { result ≡ list_all forms.is_hex_digit text.now }
{
    text.iter().all(|c| (b'0' <= *c && *c <= b'9') || (b'a' <= *c && *c <= b'f'))
}

/// Whether a text is an address: eight digits, `0` to `9` or `a` to `f`.
#[tactic(auto, unfolding(crate::specs::Forms::is_address))]
pub(crate) fn is_address(text: &[u8]) -> bool
    ensures { result ≡ forms.is_address text.now }
{
    text.len() == 8 && all_are_hex_digits(text)
}
