// What can be read from something, and what can be written into a buffer.
ghost use Rattle.std.specs.Prelude.{◌≡◌, ℕ, List, length, Result};
ghost use Rattle.netlink.specs.Emission.{form_length, emission, buffer_after, by_number};
ghost use Rattle.payload.specs.Errors.{Lack, decoded};

use model::fault::Cause;
use payload::error::DecodeError;

/// What can be read from a `T`.
pub trait Parseable<T>: Sized {
    /// What a `T` reads as, or what is wrong with it.
    ghost parsed: { T → Result Self Lack };

    fn parse(buf: &T) -> Result<Self, DecodeError>
        ensures { decoded result ≡ parsed buf.now };
}

/// What can be written at the front of a buffer.
pub trait Emitable {
    /// The bytes that are written, or the number of the cause why there are none.
    ghost form: { Self → Result (List ℕ) ℕ };

    /// How many bytes `emit` writes.
    fn buffer_len(&self) -> Result<usize, Cause>
        ensures { by_number result ≡ form_length (form self.now) };

    /// Writes it at the front of the buffer, and says how many bytes that took. On a refusal the buffer stays as it was.
    fn emit(&self, buffer: &mut [u8]) -> Result<usize, Cause>
        ensures value { by_number result ≡ emission (length buffer.old) (form self.now) }
        ensures after { buffer.new ≡ buffer_after buffer.old (form self.now) };
}
