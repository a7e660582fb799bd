// The default attribute: it is kept as it stands.
ghost use Rattle.std.specs.Prelude.{◌≡◌};
ghost use Rattle.netlink.specs.Defaults.{as_it_stands};

use crate::buffer::NlaBuffer;
use crate::nla::Nla;
use crate::overwrite::fill;
use crate::traits::Parseable;
use payload::error::DecodeError;

/// An attribute of no other type: it keeps its word with the flags, and its payload.
#[derive(Clone, Copy)]
pub struct DefaultNla<'a> {
    pub word: u16,
    pub value: &'a [u8],
}

impl<'a> From<NlaBuffer<'a>> for DefaultNla<'a> {
    ghost from_gives = { λ found kept. kept ≡ record { word = found.word; value = found.value } };

    fn from(found: NlaBuffer<'a>) -> Self {
        DefaultNla {
            word: found.word,
            value: found.value,
        }
    }
}

impl<'a> Parseable<NlaBuffer<'a>> for DefaultNla<'a> {
    ghost parsed = { as_it_stands };

    fn parse(buf: &NlaBuffer<'a>) -> Result<DefaultNla<'a>, DecodeError> {
        Ok(DefaultNla::from(*buf))
    }
}

impl<'a> Nla for DefaultNla<'a> {
    ghost word = { λ a. a.word };

    ghost payload = { λ a. a.value.now };

    fn value_len(&self) -> usize {
        self.value.len()
    }

    fn kind(&self) -> u16 {
        self.word
    }

    fn emit_value(&self, buffer: &mut [u8]) -> bool {
        fill(buffer, self.value)
    }
}
