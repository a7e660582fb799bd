// Numbers in a script: decimal, or hexadecimal after `0x`.
ghost use Rattle.std.specs.Prelude.{◌≡◌, ◌<◌, ◌≤◌};
ghost use Rattle.script.specs.Numbers.{added, digits, number_of, short_of};

use hexadecimal::digits::digit_value;

/// The largest number in a script, of 24 bits.
const LARGEST: u32 = 0xff_ffff;

/// A number with one more digit behind it; nothing where the character is no digit of this base, or the number would be too large.
fn grown(base: u32, number: u32, character: u8) -> Option<u32>
    requires { (base ≤ 16) × (number ≤ 16777215) }
    ensures { result ≡ added base number character }
{
    let digit = u32::from(digit_value(character)?);
    let grown = base * number + digit;
    if digit < base && grown <= LARGEST {
        Some(grown)
    } else {
        None
    }
}

/// The number of one digit or more.
fn digits(base: u32, text: &[u8]) -> Option<u32>
    requires { base ≤ 16 }
    ensures { result ≡ digits base text.now }
{
    if text.is_empty() {
        return None;
    }
    let mut number = 0;
    for character in text {
        number = grown(base, number, *character)?;
    }
    Some(number)
}

/// The number that a text is, at most 16,777,215: decimal, or hexadecimal after `0x`.
pub fn number(text: &[u8]) -> Option<u32>
    ensures { result ≡ number_of text.now }
{
    match text {
        [b'0', b'x', text @ ..] => digits(16, text),
        _ => digits(10, text),
    }
}

/// The number that a text is, below 65,536.
pub fn short(text: &[u8]) -> Option<u16>
    ensures { result ≡ short_of text.now }
{
    u16::try_from(number(text)?).ok()
}
