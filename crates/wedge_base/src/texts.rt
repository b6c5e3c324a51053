//! The form of names of procedures, tags, descriptors and labels, and printed bytes.

ghost use Rattle.std.specs.Prelude.{◌≡◌};
ghost use Rattle.std.specs.List.{list_all};
ghost use Rattle.wedge_base.specs.Texts as texts;

fn starts_name(c: u8) -> bool
    ensures { result ≡ texts.starts_name c }
{
    c.is_ascii_alphabetic() || c == b'_'
}

fn continues_name(c: u8) -> bool
    ensures { result ≡ texts.continues_name c }
{
    starts_name(c) || c.is_ascii_digit() || c == b'.'
}

fn all_continue_name(text: &[u8]) -> bool
    ensures { result ≡ list_all texts.continues_name text.now }
{
    text.iter().all(|c| continues_name(*c))
}

/// Whether a string is a name: 1 to 64 letters, digits, `_` and `.`, the first a letter or `_`.
#[tactic(auto, unfolding(crate::specs::Texts::is_name))]
pub fn is_name(text: &[u8]) -> bool
    ensures { result ≡ texts.is_name text.now }
{
    match text {
        [] => false,
        [first, others @ ..] => {
            others.len() <= 63 && starts_name(*first) && all_continue_name(others)
        }
    }
}

/// Whether each byte is one that ASCII prints, other than the space: from 0x21 to 0x7E.
pub fn are_printed(text: &[u8]) -> bool
    ensures { result ≡ list_all texts.is_printed text.now }
{
    text.iter().all(|c| 0x21 <= *c && *c <= 0x7e)
}
