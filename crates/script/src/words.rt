// A line's words.
ghost use Rattle.std.specs.Prelude.{◌≡◌};
ghost use Rattle.script.specs.Words.{first_word, behind_word};

use hexadecimal::plain_text::{is_blank, trimmed};

/// A text up to its first blank.
pub fn first_word(text: &[u8]) -> &[u8]
    ensures { result.now ≡ first_word text.now }
{
    match text.iter().position(|c| is_blank(*c)) {
        Some(end) => &text[..end],
        None => text,
    }
}

/// What stands behind the first word, without blanks before and behind it.
pub fn behind_word(text: &[u8]) -> &[u8]
    ensures { result.now ≡ behind_word text.now }
{
    trimmed(&text[first_word(text).len()..])
}
