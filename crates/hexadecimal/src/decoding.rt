// From text to bytes.
ghost use Rattle.std.specs.Prelude.{◌≡◌};
ghost use Rattle.hexadecimal.specs.Hex.{byte_of};
ghost use Rattle.hexadecimal.specs.Answers.{Decodes};
ghost use Rattle.hexadecimal.specs.declared.decoding.HexError.TheVariants.{NoMemory};

use crate::digits::digit_value;
use std::alloc::{AllocError, AllocFailed};

/// Why a text gave no bytes.
#[derive(Clone, Copy, PartialEq, Eq, Debug)]
pub enum HexError {
    /// A character is no digit, or the number of digits is odd.
    NotHex,
    /// No memory was found for the bytes.
    NoMemory,
}

// By hand, since a clause says which case it is.
impl From<AllocError> for HexError {
    ghost from_gives = { λ _ r. r ≡ NoMemory };

    fn from(_error: AllocError) -> HexError {
        HexError::NoMemory
    }
}

impl<T: Drop> From<AllocFailed<T>> for HexError {
    ghost from_gives = { λ _ r. r ≡ NoMemory };

    fn from(_refused: AllocFailed<T>) -> HexError {
        HexError::NoMemory
    }
}

/// The byte of two digits.
fn byte(high: u8, low: u8) -> Option<u8>
    ensures { result ≡ byte_of high low }
{
    match (digit_value(high), digit_value(low)) {
        (Some(high), Some(low)) => Some(16 * high + low),
        _ => None,
    }
}

/// Puts the bytes of a text in place of what `bytes` held. Refused is a text with an odd number of digits, or with another character; what `bytes` holds then is not said.
pub fn decode(text: &[u8], bytes: &mut Vec<u8>) -> Result<(), HexError>
    ensures { Decodes text.now result bytes.new.items }
{
    bytes.clear();
    for pair in text.chunks(2) {
        let [high, low] = pair else {
            return Err(HexError::NotHex);
        };
        match byte(*high, *low) {
            Some(found) => bytes.push(found)?,
            None => return Err(HexError::NotHex),
        }
    }
    Ok(())
}
