// Records: numbers in a fixed layout, with one reader and one writer for all of them.
ghost use Rattle.std.specs.Prelude.{◌≡◌, ℕ, ◌≤◌, List, length, take, if◌then◌else◌, Some, None, Ok, ◌==◌, nat_eq, nat_lt};
ghost use Rattle.model.specs.Numbers.{Octets};
ghost use Rattle.payload.specs.Errors.{decoded};
ghost use Rattle.netlink.specs.Emission.{by_number, emission, buffer_after};
ghost use Rattle.tc_records.specs.Reading.{at_least};

use model::fault::Cause;
use payload::error::DecodeError;

/// Numbers in a layout of a fixed size. A payload of at least that size is accepted, and writing gives back its first bytes.
pub trait Record: Sized {
    /// The layout's size.
    ghost width: { ℕ };
    /// What bytes mean.
    ghost decode: { List ℕ → Self };
    /// What is written.
    ghost encode: { Self → List ℕ };

    /// The layout's size.
    fn size() -> usize
        ensures { result ≡ width };

    /// The record at the front of the bytes, where they are enough.
    fn read(bytes: &[u8]) -> Option<Self>
        ensures { result ≡ (if nat_lt (length bytes.now) width then None else Some (decode bytes.now)) };

    // A `bool`: there is one refusal, and an error type of one value would say no more. Each record writes the array of its own size: under a const parameter for it, an impl for an enum over any record is refused (`unconstrained-parameter`).
    /// Writes the record into a buffer of just its size. A buffer of another length gets a `false`, and stays as it was.
    fn write(&self, buffer: &mut [u8]) -> bool
        ensures value { result ≡ (length buffer.old == width) }
        ensures after { buffer.new ≡ (if nat_eq (length buffer.old) width then encode self.now else buffer.old) };

    ghost whole: { (bs : List ℕ) → Octets bs → width ≤ length bs → encode (decode bs) ≡ take width bs };

    ghost sized: { (x : Self) → length (encode x) ≡ width };
}

/// The one reader of records: a payload of at least the record's size, else cause 13 with that size as need.
pub fn parse_record<R: Record>(payload: &[u8]) -> Result<R, DecodeError>
    ensures { decoded result ≡ at_least R.Record.width R.Record.decode payload.now }
{
    match R::read(payload) {
        Some(record) => Ok(record),
        None => Err(DecodeError::new(Cause::TooShort, R::size())),
    }
}

/// The one writer of records: at the front of the buffer, and how many bytes that took; cause 16 where the buffer is shorter.
pub fn emit_record<R: Record>(value: &R, buffer: &mut [u8]) -> Result<usize, Cause>
    ensures value { by_number result ≡ emission (length buffer.old) (Ok (R.Record.encode value.now)) }
    ensures after { buffer.new ≡ buffer_after buffer.old (Ok (R.Record.encode value.now)) }
{
    let size = R::size();
    if buffer.len() < size {
        return Err(Cause::NoRoom);
    }
    value.write(&mut buffer[0..size]);
    Ok(size)
}
