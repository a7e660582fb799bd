// The keys of a u32 filter.
ghost use Rattle.model.specs.Records.{key};
ghost use Rattle.tc_records.specs.Layouts.{as_key, of_key};
ghost use Rattle.model.proofs.RecordLaws.{records_lawful};
ghost use Rattle.std.specs.Prelude.{◌≡◌, refl};

use crate::joined::joined;
use crate::record::Record;
use netlink::overwrite::fill;
use payload::number::{BigEndian, Number, number_at};

/// One comparison: the bits of `mask` in the packet's word at `off` are those of `val`.
#[derive(Clone, Copy)]
pub struct TcU32Key {
    pub mask: u32,
    pub val: u32,
    pub off: i32,
    pub offmask: i32,
}

impl Record for TcU32Key {
    ghost width = { key.size };

    ghost decode = { λ bs. of_key (key.decode bs) };

    ghost encode = { λ k. key.encode (as_key k) };

    ghost whole = { λ bs o h. records_lawful.0 bs o h };

    ghost sized = { λ x. refl };

    fn size() -> usize {
        16
    }

    fn read(bytes: &[u8]) -> Option<TcU32Key> {
        Some(TcU32Key {
            mask: number_at::<BigEndian<u32>, 4>(bytes, 0)?.0,
            val: number_at::<BigEndian<u32>, 4>(bytes, 4)?.0,
            off: number_at(bytes, 8)?,
            offmask: number_at(bytes, 12)?,
        })
    }

    fn write(&self, buffer: &mut [u8]) -> bool {
        fill(buffer, &self.to_array())
    }
}

impl TcU32Key {
    /// The record's bytes.
    fn to_array(&self) -> [u8; 16]
        ensures { result ≡ key.encode (as_key self.now) }
    {
        joined(&[
            &BigEndian(self.mask).to_bytes(),
            &BigEndian(self.val).to_bytes(),
            &self.off.to_bytes(),
            &self.offmask.to_bytes(),
        ])
    }
}
