// The walk itself, head by head.
ghost use Rattle.std.specs.Prelude.{◌≡◌, ◌+◌, ◌-◌, ◌^◌, ◌<◌, min, length};
ghost use Rattle.model.specs.Attributes.{type_of};
ghost use Rattle.model.specs.Faults.{layer_number};
ghost use Rattle.model.specs.Walk.{walk};
ghost use Rattle.netlink.specs.Walking.{Meets, Goes, place_ahead, ahead};
ghost use Rattle.std.specs.Iterator.{at_most};

use super::NlasIterator;
use crate::buffer::NlaBuffer;
use crate::nla::TYPES;
use model::fault::{Cause, Fault, Layer};

/// The bytes of an attribute's head.
const NLA_HEADER_SIZE: usize = 4;

/// What stands at the front of a row of attributes.
#[derive(Clone, Copy)]
struct Found<'a> {
    word: u16,
    value: &'a [u8],
    rest: &'a [u8],
}

/// The attribute at the front of `bytes`, whose first byte stands at `place`; nothing where the row ends, or the fault of its head.
fn front<'a>(bytes: &'a [u8], place: usize, layer: Layer) -> Result<Option<Found<'a>>, Fault>
    ensures { Meets place (layer_number layer) bytes.now result }
{
    match bytes {
        [] => Ok(None),
        [l0, l1, t0, t1, rest @ ..] => {
            let length = u16::from_le_bytes([*l0, *l1]) as usize;
            let word = u16::from_le_bytes([*t0, *t1]);
            if length > bytes.len() {
                return Err(Fault::new(Cause::LengthBeyondEnd, place, layer));
            }
            if length < NLA_HEADER_SIZE {
                return Err(Fault::new(Cause::LengthBelowHead, place, layer));
            }
            let value = &rest[0..length - NLA_HEADER_SIZE];
            let onward = (length + 3) / 4 * 4;
            let from = onward.min(bytes.len());
            let rest = &bytes[from..];
            Ok(Some(Found { word, value, rest }))
        }
        _ => Err(Fault::new(Cause::HeadCutOff, place, layer)),
    }
}

impl<'a> Iterator for NlasIterator<'a> {
    type Item = Result<NlaBuffer<'a>, Fault>;

    ghost can_next = { λ _. Unit {0} };

    ghost next_gives = { Goes };

    ghost remaining = { λ s. at_most (length s.rest.now) };

    fn next(&mut self) -> Option<Result<NlaBuffer<'a>, Fault>> {
        let place = self.place();
        match front(self.rest, place, self.layer) {
            Ok(Some(found)) => {
                self.rest = found.rest;
                Some(Ok(NlaBuffer {
                    place,
                    word: found.word,
                    value: found.value,
                }))
            }
            Ok(None) => None,
            Err(fault) => {
                self.rest = &[];
                Some(Err(fault))
            }
        }
    }
}

impl<'a> NlasIterator<'a> {
    /// A walk over a whole filter, or over another row of attributes of which the first byte has the place 0.
    pub fn new(bytes: &'a [u8], layer: Layer) -> Self
        ensures walks { ahead result ≡ walk 0 bytes.now }
        ensures rest { result.rest.now ≡ bytes.now }
        ensures ends { result.end ≡ length bytes.now }
        ensures layer { result.layer ≡ layer }
    {
        NlasIterator {
            rest: bytes,
            end: bytes.len(),
            layer,
        }
    }

    /// The place of what is left to walk.
    pub fn place(&self) -> usize
        ensures { result ≡ place_ahead self.now }
    {
        self.end - self.rest.len()
    }
}

impl<'a> NlaBuffer<'a> {
    /// The type: the word without its two flags.
    pub fn kind(&self) -> u16
        ensures { result ≡ type_of self.now.word }
    {
        self.word % TYPES
    }

    /// A walk over the attributes in the payload, which begins 4 bytes behind the head. (A place so high that the payload would end beyond the largest number is drawn back to end there.)
    pub fn nested(&self, layer: Layer) -> NlasIterator<'a>
        ensures walks { self.now.place + (4 + length self.now.value.now) < 2 ^ 64 → ahead result ≡ walk (self.now.place + 4) self.now.value.now }
        ensures rest { result.rest.now ≡ self.now.value.now }
        ensures ends { result.end ≡ min (self.now.place + (4 + length self.now.value.now)) (2 ^ 64 - 1) }
        ensures layer { result.layer ≡ layer }
    {
        let end = self
            .place
            .saturating_add(4)
            .saturating_add(self.value.len());
        NlasIterator {
            rest: self.value,
            end,
            layer,
        }
    }
}
