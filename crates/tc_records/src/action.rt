// What every action has: the common head of its parameters, and its times.
ghost use Rattle.std.specs.Prelude.{◌≡◌, refl};
ghost use Rattle.std.proofs.Common.{ap, ◌∙◌, rules};
ghost use Rattle.model.specs.Records.{generic, times};
ghost use Rattle.tc_records.specs.Layouts.{as_generic, of_generic, as_times, of_times};
ghost use Rattle.model.proofs.RecordLaws.{records_lawful};
ghost use Rattle.tc_records.specs.Again.{generic_again};

use crate::joined::joined;
use crate::outcome::TcActionType;
use crate::record::Record;
use netlink::overwrite::fill;
use payload::number::{Number, number_at};

/// The common head of an action's parameters.
#[derive(Clone, Copy)]
pub struct TcActionGeneric {
    /// The action's number among those of its kind.
    pub index: u32,
    /// No known use.
    pub capab: u32,
    /// What becomes of the packet.
    pub action: TcActionType,
    /// How often the action is referred to.
    pub refcnt: i32,
    /// How many filters are bound to it.
    pub bindcnt: i32,
}

impl Record for TcActionGeneric {
    ghost width = { generic.size };

    ghost decode = { λ bs. of_generic (generic.decode bs) };

    ghost encode = { λ r. generic.encode (as_generic r) };

    ghost whole = { λ bs o h. ap generic.encode (generic_again (λ o. Prim.search rules) (generic.decode bs)) ∙ records_lawful.1 bs o h };

    ghost sized = { λ x. refl };

    fn size() -> usize {
        20
    }

    fn read(bytes: &[u8]) -> Option<TcActionGeneric> {
        Some(TcActionGeneric {
            index: number_at(bytes, 0)?,
            capab: number_at(bytes, 4)?,
            action: TcActionType::from(number_at::<i32, 4>(bytes, 8)?),
            refcnt: number_at(bytes, 12)?,
            bindcnt: number_at(bytes, 16)?,
        })
    }

    fn write(&self, buffer: &mut [u8]) -> bool {
        fill(buffer, &self.to_bytes())
    }
}

impl TcActionGeneric {
    /// The record's bytes.
    pub fn to_bytes(&self) -> [u8; 20]
        ensures { result ≡ generic.encode (as_generic self.now) }
    {
        joined(&[
            &self.index.to_bytes(),
            &self.capab.to_bytes(),
            &i32::from(self.action).to_bytes(),
            &self.refcnt.to_bytes(),
            &self.bindcnt.to_bytes(),
        ])
    }
}

/// When an action was installed and used.
#[derive(Clone, Copy)]
pub struct Tcf {
    /// The time of installation.
    pub install: u64,
    /// The time of the last use.
    pub lastuse: u64,
    /// The time of expiry.
    pub expires: u64,
    /// The time of the first use.
    pub firstuse: u64,
}

impl Record for Tcf {
    ghost width = { times.size };

    ghost decode = { λ bs. of_times (times.decode bs) };

    ghost encode = { λ r. times.encode (as_times r) };

    ghost whole = { λ bs o h. records_lawful.4 bs o h };

    ghost sized = { λ x. refl };

    fn size() -> usize {
        32
    }

    fn read(bytes: &[u8]) -> Option<Tcf> {
        Some(Tcf {
            install: number_at(bytes, 0)?,
            lastuse: number_at(bytes, 8)?,
            expires: number_at(bytes, 16)?,
            firstuse: number_at(bytes, 24)?,
        })
    }

    fn write(&self, buffer: &mut [u8]) -> bool {
        fill(buffer, &self.to_array())
    }
}

impl Tcf {
    /// The record's bytes.
    fn to_array(&self) -> [u8; 32]
        ensures { result ≡ times.encode (as_times self.now) }
    {
        joined(&[
            &self.install.to_bytes(),
            &self.lastuse.to_bytes(),
            &self.expires.to_bytes(),
            &self.firstuse.to_bytes(),
        ])
    }
}
