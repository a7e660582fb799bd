// Values that are written as attributes, and the one writer for all of them.
ghost use Rattle.std.specs.Prelude.{◌≡◌, ℕ, ◌+◌, ◌≤◌, List, length, if◌then◌else◌, ◌==◌, nat_eq};
ghost use Rattle.model.specs.Attributes.{head, rounded};
ghost use Rattle.model.specs.Page.{over};
ghost use Rattle.netlink.specs.Emission.{attribute_form, buffer_after};

use crate::overwrite::overwrite;
use crate::traits::Emitable;
use model::fault::Cause;

/// The longest payload that an attribute's length field can tell.
pub const LONGEST_PAYLOAD: usize = 65531;

/// The padding behind a payload, of which so many zeros are written as are needed.
const ZEROS: [u8; 3] = [0, 0, 0];

/// How many types there are: the two highest bits of a word are flags.
pub const TYPES: u16 = 0x4000;

/// The flag of an attribute that holds attributes. It stands in the word beside the type.
pub const NLA_F_NESTED: u16 = 0x8000;

/// A value that is written as an attribute: it means a word and a payload.
pub trait Nla {
    /// The type with its flags.
    ghost word: { Self → ℕ };

    ghost payload: { Self → List ℕ };

    /// The payload's length.
    fn value_len(&self) -> usize
        ensures { result ≡ length (payload self.now) };

    /// The type with its flags.
    fn kind(&self) -> u16
        ensures { result ≡ word self.now };

    // A `bool`: there is one refusal, and an error type of one value would say no more.
    /// Writes the payload whole into a buffer of just its length. A buffer of another length gets a `false`, and stays as it was.
    fn emit_value(&self, buffer: &mut [u8]) -> bool
        ensures value { result ≡ (length (payload self.now) == length buffer.old) }
        ensures after { buffer.new ≡ (if nat_eq (length (payload self.now)) (length buffer.old) then payload self.now else buffer.old) };
}

/// The four bytes of an attribute's head.
pub fn head(size: u16, word: u16) -> [u8; 4]
    ensures { result ≡ head size word }
{
    let [a, b] = size.to_le_bytes();
    let [c, d] = word.to_le_bytes();
    [a, b, c, d]
}

/// Writes the payload over the buffer from `at` on.
fn write_payload<T: Nla>(nla: &T, buffer: &mut [u8], at: usize, size: usize)
    requires fits { at + size ≤ length buffer.old }
    requires whole { size ≡ length (T.Nla.payload nla.now) }
    ensures { buffer.new ≡ over buffer.old at (T.Nla.payload nla.now) }
{
    nla.emit_value(&mut buffer[at..at + size]);
}

/// Writes head, payload and zero padding at the front of the buffer: `size` bytes.
fn write_attribute<T: Nla>(nla: &T, buffer: &mut [u8], size: usize)
    requires short { length (T.Nla.payload nla.now) ≤ 65531 }
    requires whole { size ≡ rounded (4 + length (T.Nla.payload nla.now)) }
    requires room { size ≤ length buffer.old }
    ensures { buffer.new ≡ buffer_after buffer.old (attribute_form (T.Nla.word nla.now) (T.Nla.payload nla.now)) }
{
    let end = 4 + nla.value_len();
    let head = head(end as u16, nla.kind());
    overwrite(buffer, 0, &head);
    write_payload(nla, buffer, 4, end - 4);
    overwrite(buffer, end, &ZEROS[0..size - end]);
}

impl<T: Nla> Emitable for T {
    ghost form = { λ x. attribute_form (T.Nla.word x) (T.Nla.payload x) };

    fn buffer_len(&self) -> Result<usize, Cause> {
        let length = self.value_len();
        if length > LONGEST_PAYLOAD {
            return Err(Cause::PayloadTooLong);
        }
        Ok((length + 7) / 4 * 4)
    }

    fn emit(&self, buffer: &mut [u8]) -> Result<usize, Cause> {
        let size = self.buffer_len()?;
        if buffer.len() < size {
            return Err(Cause::NoRoom);
        }
        write_attribute(self, buffer, size);
        Ok(size)
    }
}
