// The sixteen digits, in either case.
ghost use Rattle.std.specs.Prelude.{◌≡◌, ◌<◌};
ghost use Rattle.hexadecimal.specs.Hex.{digit, value_of};

/// What a digit stands for; nothing where the character is no digit.
pub fn digit_value(character: u8) -> Option<u8>
    ensures { result ≡ value_of character }
{
    // No plainer by `char::to_digit`, which answers a `u32` that must be cast.
    match character {
        b'0'..=b'9' => Some(character - b'0'),
        b'a'..=b'f' => Some(character - b'a' + 10),
        b'A'..=b'F' => Some(character - b'A' + 10),
        _ => None,
    }
}

/// The digit of a number below 16, in lower case.
pub(crate) fn digit_of(number: u8) -> char
    requires { number < 16 }
    ensures { result ≡ digit number }
{
    char::from_digit(u32::from(number), 16).unwrap()
}
