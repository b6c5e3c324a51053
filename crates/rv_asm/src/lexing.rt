//! A text in pieces: lines, words and operands.

ghost use Rattle.std.specs.Prelude.{◌≡◌, ◌==◌, option_map, position};
ghost use Rattle.rv_asm.specs.Lexing as lexing;

/// Whether a byte is a space or a tab.
pub(crate) fn is_blank(c: u8) -> bool
    ensures { result ≡ lexing.is_blank c }
{
    c == b' ' || c == b'\t'
}

/// The text without the spaces and tabs at its start.
pub(crate) fn trim_start(text: &[u8]) -> &[u8]
    ensures { result.now ≡ lexing.trim_start text.now }
{
    let mut rest = text;
    while let [first, others @ ..] = rest {
        if !is_blank(*first) {
            break;
        }
        rest = others;
    }
    rest
}

/// The text without the spaces and tabs at its end.
#[tactic(auto, using(crate::proofs::Trims::trim_end_blank, crate::proofs::Trims::trim_end_other, crate::proofs::Trims::trim_end_none))]
fn trim_end(text: &[u8]) -> &[u8]
    ensures { result.now ≡ lexing.trim_end text.now }
{
    let mut rest = text;
    while let [others @ .., last] = rest {
        if !is_blank(*last) {
            break;
        }
        rest = others;
    }
    rest
}

/// The text without the spaces and tabs around it.
#[tactic(auto, unfolding(crate::specs::Lexing::trim))]
pub(crate) fn trim(text: &[u8]) -> &[u8]
    ensures { result.now ≡ lexing.trim text.now }
{
    trim_end(trim_start(text))
}

fn place_of_comment(line: &[u8]) -> Option<usize>
    ensures { result ≡ position (λ c. c == 35) line.now }
{
    line.iter().position(|c| *c == b'#')
}

/// A line without its comment, which begins with `#`, and trimmed.
#[tactic(auto, unfolding(crate::specs::Lexing::without_comment))]
pub(crate) fn content(line: &[u8]) -> &[u8]
    ensures { result.now ≡ lexing.without_comment line.now }
{
    match place_of_comment(line) {
        Some(place) => trim(&line[..place]),
        None => trim(line),
    }
}

fn place_of_blank(text: &[u8]) -> Option<usize>
    ensures { result ≡ position lexing.is_blank text.now }
{
    text.iter().position(|c| is_blank(*c))
}

/// The first word of a text, and the text after it.
pub(crate) fn first_word(text: &[u8]) -> (&[u8], &[u8])
    ensures word { result.0.now ≡ lexing.first_word text.now }
    ensures rest { result.1.now ≡ lexing.following text.now }
{
    match place_of_blank(text) {
        Some(place) => (&text[..place], trim_start(&text[place + 1..])),
        None => (text, &[]),
    }
}

fn place_of_comma(text: &[u8]) -> Option<usize>
    ensures { result ≡ position lexing.is_comma text.now }
{
    text.iter().position(|c| *c == b',')
}

/// The two parts of a text around its first comma.
#[tactic(auto, unfolding(crate::specs::Lexing::at_comma))]
fn at_comma(text: &[u8]) -> Option<(&[u8], &[u8])>
    ensures { option_map (λ x. (x.0.now, x.1.now)) result ≡ lexing.at_comma text.now }
{
    let place = place_of_comma(text)?;
    Some((&text[..place], &text[place + 1..]))
}

/// The operand of a text that has one.
#[tactic(auto, using(crate::proofs::Commas::one_empty, crate::proofs::Commas::one_comma, crate::proofs::Commas::one_alone))]
pub(crate) fn one(text: &[u8]) -> Option<&[u8]>
    ensures { option_map (λ x. x.now) result ≡ lexing.one (lexing.operands text.now) }
{
    if text.is_empty() || at_comma(text).is_some() {
        return None;
    }
    Some(trim(text))
}

/// The operands of a text that has two.
#[tactic(auto, using(crate::proofs::Commas::two_none, crate::proofs::Commas::two_comma, crate::proofs::Commas::two_alone))]
pub(crate) fn two(text: &[u8]) -> Option<(&[u8], &[u8])>
    ensures { option_map (λ x. (x.0.now, x.1.now)) result
        ≡ lexing.two (lexing.operands text.now) }
{
    let (first, rest) = at_comma(text)?;
    if at_comma(rest).is_some() {
        return None;
    }
    Some((trim(first), trim(rest)))
}

/// The second operand of a text that has two or more.
#[tactic(auto, using(crate::proofs::Commas::second_none, crate::proofs::Commas::second_comma, crate::proofs::Commas::second_alone))]
pub(crate) fn second(text: &[u8]) -> Option<&[u8]>
    ensures { option_map (λ x. x.now) result ≡ lexing.second (lexing.operands text.now) }
{
    let (_, rest) = at_comma(text)?;
    match at_comma(rest) {
        Some((second, _)) => Some(trim(second)),
        None => Some(trim(rest)),
    }
}

/// The operands of a text that has three.
#[tactic(auto, using(crate::proofs::Commas::three_none, crate::proofs::Commas::three_one, crate::proofs::Commas::three_comma, crate::proofs::Commas::three_alone))]
pub(crate) fn three(text: &[u8]) -> Option<(&[u8], &[u8], &[u8])>
    ensures { option_map (λ x. (x.0.now, x.1.now, x.2.now)) result
        ≡ lexing.three (lexing.operands text.now) }
{
    let (first, rest) = at_comma(text)?;
    let (second, third) = at_comma(rest)?;
    if at_comma(third).is_some() {
        return None;
    }
    Some((trim(first), trim(second), trim(third)))
}
