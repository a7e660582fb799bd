// Numbers from a payload of just their length.
ghost use Rattle.std.specs.Prelude.{◌≡◌};
ghost use Rattle.payload.specs.Errors.{decoded};
ghost use Rattle.payload.specs.Payloads.{exactly};

use crate::error::DecodeError;
use crate::number::Number;
use model::fault::Cause;

/// A number from a payload of just its `N` bytes, as `parse::<u16, 2>(payload)`.
pub fn parse<T: Number<N>, const N: usize>(payload: &[u8]) -> Result<T, DecodeError>
    ensures { decoded result ≡ exactly N (T.at 0) payload.now }
{
    match payload.as_array::<N>() {
        Some(bytes) => Ok(T::from_bytes(*bytes)),
        None => Err(DecodeError::new(Cause::WrongLength, N)),
    }
}
