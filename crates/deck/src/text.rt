// The text of a deck: its bytes cut at blanks and read as words, numbers and hexadecimal digits. They need not be UTF-8, so
// it is no `str`.
ghost use Rattle.std.specs.Prelude.{◌≡◌, IfOk};
ghost use Rattle.std.specs.List.{list_all};
ghost use Rattle.hex.specs.Hex.{is_hex_digit};
ghost use Rattle.deck.specs.Text.{blank, before, behind, first_word, after_word, without_blanks, number_in};

use std::alloc::{AllocError, Global};

// A number of this many digits fits a `usize`, whatever the digits.
const MOST_DIGITS: usize = 18;

// Space, tab and carriage return. A form feed, which `is_ascii_whitespace` takes too, belongs to a word.
fn is_blank(c: u8) -> bool
    ensures { result ≡ blank c }
{
    matches!(c, b' ' | b'\t' | b'\r')
}

// The text before the first byte `stop`, and the text behind it: all and nothing where there is none.
pub(crate) fn cut(text: &[u8], stop: u8) -> (&[u8], &[u8])
    ensures front { result.0.now ≡ before stop text.now }
    ensures back { result.1.now ≡ behind stop text.now }
{
    match text.iter().position(|c| *c == stop) {
        Some(i) => (&text[..i], &text[i + 1..]),
        None => (text, &[]),
    }
}

// The first word of a text, and what follows it. Where there is none, both are empty.
pub(crate) fn first_word(text: &[u8]) -> (&[u8], &[u8])
    ensures word { result.0.now ≡ first_word text.now }
    ensures rest { result.1.now ≡ after_word text.now }
{
    let start = text.iter().take_while(|c| is_blank(**c)).count();
    let text = &text[start..];
    let end = text.iter().take_while(|c| !is_blank(**c)).count();
    text.split_at(end)
}

pub(crate) fn without_blanks(heap: Global, text: &[u8]) -> Result<Vec<u8>, AllocError>
    ensures { IfOk result (λ v. v.items ≡ without_blanks text.now) }
{
    text.iter().copied().filter(|c| !is_blank(*c)).collect(heap)
}

// Whether all bytes are hexadecimal digits, of either case.
#[tactic(auto, using(crate::proofs::Digits::same_digit))]
pub(crate) fn is_hexadecimal(text: &[u8]) -> bool
    ensures { result ≡ list_all is_hex_digit text.now }
{
    text.iter().all(u8::is_ascii_hexdigit)
}

// A number of 1 to 18 digits, without a sign.
pub(crate) fn number(word: &[u8]) -> Option<u64>
    ensures { result ≡ number_in word.now }
{
    if word.len() > MOST_DIGITS {
        return None;
    }
    elements::number::number(word)
}
