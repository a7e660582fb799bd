// Text for people: blanks and line ends between the digits, and comments.
ghost use Rattle.std.specs.Prelude.{◌≡◌, ◌++◌, IfOk};
ghost use Rattle.hexadecimal.specs.PlainText.{blank, goes_on, counts, without_remarks, from_start, until_end};

use std::alloc::{AllocError, Global};

/// Whether a character only separates others.
pub fn is_blank(character: u8) -> bool
    ensures { result ≡ blank character }
{
    matches!(character, b' ' | b'\t' | b'\r' | b'\n')
}

/// Whether a comment goes on behind a character: it begins with `#`, and ends with the line.
fn goes_on(in_comment: bool, character: u8) -> bool
    ensures { result ≡ goes_on in_comment character }
{
    match character {
        b'\n' => false,
        b'#' => true,
        _ => in_comment,
    }
}

/// Whether a character belongs to the text proper.
fn counts(in_comment: bool, character: u8) -> bool
    ensures { result ≡ counts in_comment character }
{
    !goes_on(in_comment, character) && !is_blank(character)
}

/// The text without its blanks, its line ends and its comments, which go from a `#` to the end of the line.
pub fn without_remarks(heap: Global, text: &[u8]) -> Result<Vec<u8>, AllocError>
    ensures { IfOk result (λ v. v.items ≡ without_remarks text.now) }
{
    let mut found = Vec::new(heap);
    let mut in_comment = false;
    for character in text {
        if counts(in_comment, *character) {
            found.push(*character)?;
        }
        in_comment = goes_on(in_comment, *character);
    }
    Ok(found)
}

/// The text without the blanks before it.
fn without_front(text: &[u8]) -> &[u8]
    ensures { result.now ≡ from_start text.now }
{
    match text.iter().position(|c| !is_blank(*c)) {
        Some(first) => &text[first..],
        None => &[],
    }
}

/// The text without the blanks behind it.
fn without_back(text: &[u8]) -> &[u8]
    ensures { result.now ≡ until_end text.now }
{
    match text.iter().rev().position(|c| !is_blank(*c)) {
        Some(behind) => &text[..text.len() - behind],
        None => &[],
    }
}

/// The text without the blanks before and behind it.
pub fn trimmed(text: &[u8]) -> &[u8]
    ensures { result.now ≡ until_end (from_start text.now) }
{
    without_back(without_front(text))
}
