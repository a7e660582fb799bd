// Text from a payload: UTF-8 by RFC 3629, with one zero at its end or none.
ghost use Rattle.std.specs.Prelude.{◌≡◌, ℕ, ◌∷◌, List, is_ok, IsUtf8, Decides};
ghost use Rattle.model.specs.Text.{first_length, low, high, test, is_text, stripped};
ghost use Rattle.payload.specs.Texts.{spelt, text_in, goes_on};

use crate::error::DecodeError;
use model::fault::Cause;
use std::str::from_utf8_unchecked;

/// How many bytes a character has, by its first byte; 0 where none begins so. A row for each high half, an entry for each low half.
const LENGTHS: [[u8; 16]; 16] = [
    [1, 1, 1, 1, 1, 1, 1, 1, 1, 1, 1, 1, 1, 1, 1, 1],
    [1, 1, 1, 1, 1, 1, 1, 1, 1, 1, 1, 1, 1, 1, 1, 1],
    [1, 1, 1, 1, 1, 1, 1, 1, 1, 1, 1, 1, 1, 1, 1, 1],
    [1, 1, 1, 1, 1, 1, 1, 1, 1, 1, 1, 1, 1, 1, 1, 1],
    [1, 1, 1, 1, 1, 1, 1, 1, 1, 1, 1, 1, 1, 1, 1, 1],
    [1, 1, 1, 1, 1, 1, 1, 1, 1, 1, 1, 1, 1, 1, 1, 1],
    [1, 1, 1, 1, 1, 1, 1, 1, 1, 1, 1, 1, 1, 1, 1, 1],
    [1, 1, 1, 1, 1, 1, 1, 1, 1, 1, 1, 1, 1, 1, 1, 1],
    [0, 0, 0, 0, 0, 0, 0, 0, 0, 0, 0, 0, 0, 0, 0, 0],
    [0, 0, 0, 0, 0, 0, 0, 0, 0, 0, 0, 0, 0, 0, 0, 0],
    [0, 0, 0, 0, 0, 0, 0, 0, 0, 0, 0, 0, 0, 0, 0, 0],
    [0, 0, 0, 0, 0, 0, 0, 0, 0, 0, 0, 0, 0, 0, 0, 0],
    [0, 0, 2, 2, 2, 2, 2, 2, 2, 2, 2, 2, 2, 2, 2, 2],
    [2, 2, 2, 2, 2, 2, 2, 2, 2, 2, 2, 2, 2, 2, 2, 2],
    [3, 3, 3, 3, 3, 3, 3, 3, 3, 3, 3, 3, 3, 3, 3, 3],
    [4, 4, 4, 4, 4, 0, 0, 0, 0, 0, 0, 0, 0, 0, 0, 0],
];

/// The table's entry.
fn length_by(first: u8) -> u8
    ensures { result ≡ first_length first }
{
    LENGTHS[(first / 16) as usize][(first % 16) as usize]
}

/// The lowest and the highest second byte of a character.
fn second_range(first: u8) -> (u8, u8)
    ensures { result ≡ (low first, high first) }
{
    match first {
        0xE0 => (0xA0, 0xBF),
        0xED => (0x80, 0x9F),
        0xF0 => (0x90, 0xBF),
        0xF4 => (0x80, 0x8F),
        _ => (0x80, 0xBF),
    }
}

/// How far a text has come: how many bytes of a character are still to come, the next of them from `from` to `to`.
#[derive(Clone, Copy)]
struct Partway {
    left: u8,
    from: u8,
    to: u8,
}

impl Partway {
    /// At the start of a text, where no character is begun.
    fn start() -> Self
        ensures { result ≡ record { left = 0; from = 0; to = 0 } }
    {
        Partway {
            left: 0,
            from: 0,
            to: 0,
        }
    }

    /// One byte further; nothing where the byte cannot stand here.
    fn after(self, byte: u8) -> Option<Self>
        ensures { (more : List ℕ) → test self.left self.from self.to (byte ∷ more) ≡ goes_on result more }
    {
        if self.left == 0 {
            let left = length_by(byte).checked_sub(1)?;
            let (from, to) = second_range(byte);
            return Some(Partway { left, from, to });
        }
        if byte < self.from || self.to < byte {
            return None;
        }
        Some(Partway {
            left: self.left - 1,
            from: 0x80,
            to: 0xBF,
        })
    }
}

/// Whether the bytes are UTF-8.
pub fn is_utf8(text: &[u8]) -> bool
    ensures test { result ≡ is_text text.now }
    ensures decides { Decides result (IsUtf8 text.now) }
{
    let mut partway = Partway::start();
    for byte in text {
        match partway.after(*byte) {
            Some(further) => partway = further,
            None => return false,
        }
    }
    partway.left == 0
}

/// The payload without one zero at its end, if it has one.
fn without_last_zero(payload: &[u8]) -> &[u8]
    ensures { result.now ≡ stripped payload.now }
{
    match payload {
        [text @ .., 0] => text,
        _ => payload,
    }
}

/// A text: the payload without one zero at its end, where that is UTF-8.
pub fn parse_string<'a>(payload: &'a [u8]) -> Result<&'a str, DecodeError>
    ensures text { spelt result ≡ text_in payload.now }
    ensures accepts { Decides (is_ok result) (IsUtf8 (stripped payload.now)) }
{
    let text = without_last_zero(payload);
    if is_utf8(text) {
        Ok(unsafe { from_utf8_unchecked(text) })
    } else {
        Err(DecodeError::new(Cause::KindNotUtf8, 0))
    }
}
