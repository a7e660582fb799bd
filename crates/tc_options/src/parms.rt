// The options of an action that has its times, its parameters, and no other types of option.
ghost use Rattle.std.specs.Prelude.{ℕ};
ghost use Rattle.tc_options.specs.Parms.{parms_option, parms_word, parms_payload};

use netlink::buffer::NlaBuffer;
use netlink::default_nla::DefaultNla;
use netlink::nla::Nla;
use netlink::traits::Parseable;
use payload::error::DecodeError;
use tc_records::action::Tcf;
use tc_records::parameters::ParameterRecord;
use tc_records::record::{Record, parse_record};

/// The parameters of an action whose options are these, its times, and no others: by which types they go.
pub trait KnownAction: ParameterRecord {
    /// The type of the option that holds the times.
    const TM: u16;

    ghost TM: { ℕ };

    /// The type of the option that holds the parameters.
    const PARMS: u16;

    ghost PARMS: { ℕ };
}

/// An option of such an action.
#[derive(Clone, Copy)]
pub enum TcActionParmsOption<'a, P> {
    /// When the action was installed and used.
    Tm(Tcf),
    /// The action's parameters.
    Parms(P),
    /// An option of any other type.
    Other(DefaultNla<'a>),
}

impl<'a, P: KnownAction> Parseable<NlaBuffer<'a>> for TcActionParmsOption<'a, P> {
    ghost parsed = { parms_option P.TM P.PARMS P.Record.width P.Record.decode };

    fn parse(buf: &NlaBuffer<'a>) -> Result<TcActionParmsOption<'a, P>, DecodeError> {
        let kind = buf.kind();
        if kind == P::TM {
            Ok(TcActionParmsOption::Tm(parse_record(buf.value)?))
        } else if kind == P::PARMS {
            Ok(TcActionParmsOption::Parms(parse_record(buf.value)?))
        } else {
            Ok(TcActionParmsOption::Other(DefaultNla::from(*buf)))
        }
    }
}

impl<'a, P: KnownAction> Nla for TcActionParmsOption<'a, P> {
    ghost word = { parms_word P.TM P.PARMS };

    ghost payload = { parms_payload P.Record.encode };

    fn value_len(&self) -> usize {
        match self {
            TcActionParmsOption::Tm(_) => Tcf::size(),
            TcActionParmsOption::Parms(_) => P::size(),
            TcActionParmsOption::Other(attribute) => attribute.value_len(),
        }
    }

    fn kind(&self) -> u16 {
        match self {
            TcActionParmsOption::Tm(_) => P::TM,
            TcActionParmsOption::Parms(_) => P::PARMS,
            TcActionParmsOption::Other(attribute) => attribute.kind(),
        }
    }

    fn emit_value(&self, buffer: &mut [u8]) -> bool {
        match self {
            TcActionParmsOption::Tm(times) => times.write(buffer),
            TcActionParmsOption::Parms(parameters) => parameters.write(buffer),
            TcActionParmsOption::Other(attribute) => attribute.emit_value(buffer),
        }
    }
}
