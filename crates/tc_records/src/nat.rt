// The parameters of an address translation.
ghost use Rattle.model.specs.Records.{nat};
ghost use Rattle.tc_records.specs.Layouts.{as_nat, of_nat};
ghost use Rattle.std.proofs.Common.{ap, ◌∙◌, rules};
ghost use Rattle.std.specs.Prelude.{◌≡◌, refl};
ghost use Rattle.model.proofs.RecordLaws.{records_lawful};
ghost use Rattle.tc_records.specs.Again.{nat_again};

use crate::action::TcActionGeneric;
use crate::joined::joined;
use crate::parameters::ParameterRecord;
use crate::record::Record;
use netlink::overwrite::fill;
use payload::number::{BigEndian, Number, number_at};

/// The parameters of an address translation.
#[derive(Clone, Copy)]
pub struct TcNat {
    /// The common head.
    pub generic: TcActionGeneric,
    /// The IPv4 address to be replaced.
    pub old_addr: u32,
    /// The IPv4 address that replaces it.
    pub new_addr: u32,
    /// The bits of the address that are replaced.
    pub mask: u32,
    /// The flags, kept whole.
    pub flags: u32,
}

impl Record for TcNat {
    ghost width = { nat.size };

    ghost decode = { λ bs. of_nat (nat.decode bs) };

    ghost encode = { λ r. nat.encode (as_nat r) };

    ghost whole = { λ bs o h. ap nat.encode (nat_again (λ o. Prim.search rules) (nat.decode bs)) ∙ records_lawful.5 bs o h };

    ghost sized = { λ x. refl };

    fn size() -> usize {
        36
    }

    fn read(bytes: &[u8]) -> Option<TcNat> {
        Some(TcNat {
            generic: TcActionGeneric::read(bytes)?,
            old_addr: number_at::<BigEndian<u32>, 4>(bytes, 20)?.0,
            new_addr: number_at::<BigEndian<u32>, 4>(bytes, 24)?.0,
            mask: number_at::<BigEndian<u32>, 4>(bytes, 28)?.0,
            flags: number_at(bytes, 32)?,
        })
    }

    fn write(&self, buffer: &mut [u8]) -> bool {
        fill(buffer, &self.to_array())
    }
}

impl TcNat {
    /// The record's bytes.
    fn to_array(&self) -> [u8; 36]
        ensures { result ≡ nat.encode (as_nat self.now) }
    {
        joined(&[
            &self.generic.to_bytes(),
            &BigEndian(self.old_addr).to_bytes(),
            &BigEndian(self.new_addr).to_bytes(),
            &BigEndian(self.mask).to_bytes(),
            &self.flags.to_bytes(),
        ])
    }
}

impl ParameterRecord for TcNat {
    ghost head = { λ r. r.generic };

    ghost common = { λ bs. refl };

    fn generic(&self) -> TcActionGeneric {
        self.generic
    }
}
