// The parameters of a mirror action.
ghost use Rattle.model.specs.Records.{mirror};
ghost use Rattle.tc_records.specs.Layouts.{as_mirror, of_mirror};
ghost use Rattle.std.proofs.Common.{ap, ◌∙◌, rules};
ghost use Rattle.std.specs.Prelude.{◌≡◌, refl};
ghost use Rattle.model.proofs.RecordLaws.{records_lawful};
ghost use Rattle.tc_records.specs.Again.{mirror_again};

use crate::action::TcActionGeneric;
use crate::joined::joined;
use crate::mirror_action::TcMirrorActionType;
use crate::parameters::ParameterRecord;
use crate::record::Record;
use netlink::overwrite::fill;
use payload::number::{Number, number_at};

/// The parameters of a mirror action.
#[derive(Clone, Copy)]
pub struct TcMirror {
    /// The common head.
    pub generic: TcActionGeneric,
    /// What is done with the packet.
    pub eaction: TcMirrorActionType,
    /// The interface that packets go to.
    pub ifindex: u32,
}

impl Record for TcMirror {
    ghost width = { mirror.size };

    ghost decode = { λ bs. of_mirror (mirror.decode bs) };

    ghost encode = { λ r. mirror.encode (as_mirror r) };

    ghost whole = { λ bs o h. ap mirror.encode (mirror_again (λ o. Prim.search rules) (λ a. Prim.search rules) (mirror.decode bs)) ∙ records_lawful.3 bs o h };

    ghost sized = { λ x. refl };

    fn size() -> usize {
        28
    }

    fn read(bytes: &[u8]) -> Option<TcMirror> {
        Some(TcMirror {
            generic: TcActionGeneric::read(bytes)?,
            eaction: TcMirrorActionType::from(number_at::<i32, 4>(bytes, 20)?),
            ifindex: number_at(bytes, 24)?,
        })
    }

    fn write(&self, buffer: &mut [u8]) -> bool {
        fill(buffer, &self.to_array())
    }
}

impl TcMirror {
    /// The record's bytes.
    fn to_array(&self) -> [u8; 28]
        ensures { result ≡ mirror.encode (as_mirror self.now) }
    {
        joined(&[
            &self.generic.to_bytes(),
            &i32::from(self.eaction).to_bytes(),
            &self.ifindex.to_bytes(),
        ])
    }
}

impl ParameterRecord for TcMirror {
    ghost head = { λ r. r.generic };

    ghost common = { λ bs. refl };

    fn generic(&self) -> TcActionGeneric {
        self.generic
    }
}
