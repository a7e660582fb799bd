// From bytes to text.
ghost use Rattle.std.specs.Prelude.{◌≡◌, ◌++◌, string_bytes, OnOk};
ghost use Rattle.hexadecimal.specs.Hex.{encode};
ghost use Rattle.hexadecimal.specs.Laws.{ReadsAgain};

use crate::digits::digit_of;
use std::alloc::AllocError;

/// Adds the bytes to a text, two lower-case digits each.
pub fn encode(bytes: &[u8], text: &mut String) -> Result<(), AllocError>
    ensures { OnOk result (string_bytes text.new ≡ string_bytes text.old ++ encode bytes.now) }
{
    for byte in bytes {
        text.push(digit_of(*byte / 16))?;
        text.push(digit_of(*byte % 16))?;
    }
    Ok(())
}

/// What is encoded is decoded to the bytes that it was.
pub fn reads_again()
    ensures { ReadsAgain }
{}
