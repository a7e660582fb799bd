// The selector of a u32 filter: 16 bytes, then its keys.
ghost use Rattle.std.specs.Prelude.{◌≡◌, ◌+◌, ◌-◌, ◌*◌, ◌<◌, ◌≤◌, ◌&&◌, ◌∷◌, ◌++◌, length, take, drop, IfOk, MatchOption, if◌then◌else◌, Some, None, Ok, nat_le, nat_lt};
ghost use Rattle.model.specs.Numbers.{part, le};
ghost use Rattle.model.specs.Records as layouts;
ghost use Rattle.model.specs.Selector.{wanted, encode};
ghost use Rattle.netlink.specs.Emission.{by_number, emission, buffer_after};
ghost use Rattle.tc_records.specs.Layouts.{of_key};
ghost use Rattle.tc_records.specs.Selectors.{HeadIn, as_selector, selected, selector_in, nth_key, selector_head, selector_form};

use crate::cls_u32::TcU32Key;
use crate::joined::joined;
use crate::record::Record;
use model::fault::Cause;
use netlink::overwrite::overwrite;
use payload::error::DecodeError;
use payload::number::{BigEndian, Number, number_at};

/// The selector of a u32 filter: its own numbers, and the bytes of its keys, which are a part of the filter.
#[derive(Clone, Copy)]
pub struct TcU32Selector<'a> {
    /// The flags, kept whole.
    pub flags: u8,
    /// The right shift of the variable offset.
    pub offshift: u8,
    // A field of the format, kept beside the keys as it was read: a selector made by hand may tell another number.
    /// The number of keys.
    pub nkeys: u8,
    /// The mask of the word that holds the variable offset.
    pub offmask: u16,
    /// The fixed offset.
    pub off: u16,
    /// The place of the word that holds the variable offset.
    pub offoff: i16,
    /// The place of the word that is hashed.
    pub hoff: i16,
    /// The mask of the word that is hashed.
    pub hmask: u32,
    /// The keys, 16 bytes each.
    pub keys: &'a [u8],
}

impl<'a> TcU32Selector<'a> {
    /// The selector at the front of a payload, which has 16 bytes, and 16 more for each key; else cause 13, with the length wanted.
    /// Written, it is the bytes that were read, with byte 3 zero, and that is the form that the model gives it.
    pub fn parse(payload: &'a [u8]) -> Result<Self, DecodeError>
        ensures reads { selected result ≡ selector_in payload.now }
        ensures part { IfOk result (λ s. s.keys.now ≡ part 16 (16 * le 2 1 payload.now) payload.now) }
        ensures written { IfOk result (λ s. selector_form s ≡ take 3 payload.now ++ (0 ∷ part 4 (wanted payload.now - 4) payload.now)) }
        ensures form { IfOk result (λ s. selector_form s ≡ encode (as_selector s)) }
    {
        let head = Self::head(payload).ok_or(DecodeError::new(Cause::TooShort, 16))?;
        let end = 16 + 16 * head.nkeys as usize;
        let keys = payload
            .get(16..end)
            .ok_or(DecodeError::new(Cause::TooShort, end))?;
        Ok(TcU32Selector { keys, ..head })
    }

    /// The numbers at the front of a payload of 16 bytes or more, with no keys yet.
    fn head(payload: &[u8]) -> Option<Self>
        ensures { MatchOption result (length payload.now < 16) (HeadIn payload.now) }
    {
        Some(TcU32Selector {
            flags: number_at(payload, 0)?,
            offshift: number_at(payload, 1)?,
            nkeys: number_at(payload, 2)?,
            offmask: number_at::<BigEndian<u16>, 2>(payload, 4)?.0,
            off: number_at(payload, 6)?,
            offoff: number_at(payload, 8)?,
            hoff: number_at(payload, 10)?,
            hmask: number_at::<BigEndian<u32>, 4>(payload, 12)?.0,
            keys: &[],
        })
    }

    /// The key of a number, counted from 0: absent unless the number is below `nkeys`, and its bytes are there.
    /// Where the bytes of all keys are there, as in a selector that was read, it is the model's key of that number.
    pub fn key(&self, i: usize) -> Option<TcU32Key>
        ensures value { result ≡ (if nat_lt i self.now.nkeys && nat_le (16 * i + 16) (length self.now.keys.now) then Some (of_key ((layouts.key).decode (drop (16 * i) self.now.keys.now))) else None) }
        ensures whole { 16 * self.now.nkeys ≤ length self.now.keys.now → result ≡ nth_key (as_selector self.now).keys i }
    {
        if i >= self.nkeys as usize {
            return None;
        }
        let at = 16 * i;
        TcU32Key::read(self.keys.get(at..)?)
    }

    /// How many bytes the selector is written as.
    pub fn buffer_len(&self) -> usize
        ensures { result ≡ length (selector_form self.now) }
    {
        16 + self.keys.len()
    }

    /// The first 16 bytes of what is written.
    fn head_bytes(&self) -> [u8; 16]
        ensures { result ≡ selector_head self.now }
    {
        joined(&[
            &[self.flags, self.offshift, self.nkeys, 0],
            &BigEndian(self.offmask).to_bytes(),
            &self.off.to_bytes(),
            &self.offoff.to_bytes(),
            &self.hoff.to_bytes(),
            &BigEndian(self.hmask).to_bytes(),
        ])
    }

    /// Writes the selector at the front of the buffer, and answers how many bytes that took; cause 16 where the buffer is shorter.
    pub fn emit(&self, buffer: &mut [u8]) -> Result<usize, Cause>
        ensures value { by_number result ≡ emission (length buffer.old) (Ok (selector_form self.now)) }
        ensures after { buffer.new ≡ buffer_after buffer.old (Ok (selector_form self.now)) }
    {
        let size = self.buffer_len();
        if buffer.len() < size {
            return Err(Cause::NoRoom);
        }
        let head = self.head_bytes();
        overwrite(buffer, 0, &head);
        overwrite(buffer, 16, self.keys);
        Ok(size)
    }
}
