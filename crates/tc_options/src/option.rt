// An option of an action, by the action's kind.
ghost use Rattle.std.specs.Prelude.{◌≡◌};
ghost use Rattle.payload.specs.Errors.{decoded};
ghost use Rattle.tc_options.specs.Options.{option_of, option_word, option_payload};

use crate::mirror::TcActionMirrorOption;
use crate::nat::TcActionNatOption;
use crate::tunnel_key::TcActionTunnelKeyOption;
use crate::{mirror, nat, tunnel_key};
use netlink::buffer::NlaBuffer;
use netlink::default_nla::DefaultNla;
use netlink::nla::Nla;
use netlink::traits::Parseable;
use payload::error::DecodeError;

/// An option of an action, as the shipped book knows it: by the action's kind, and by its type.
#[derive(Clone, Copy)]
pub enum TcActionOption<'a> {
    Mirror(TcActionMirrorOption<'a>),
    Nat(TcActionNatOption<'a>),
    TunnelKey(TcActionTunnelKeyOption<'a>),
    /// An option of an action of any other kind.
    Other(DefaultNla<'a>),
}

impl<'a> TcActionOption<'a> {
    /// Reads an option of an action of this kind.
    pub fn parse(kind: &[u8], buf: &NlaBuffer<'a>) -> Result<TcActionOption<'a>, DecodeError>
        ensures { decoded result ≡ option_of kind.now buf.now }
    {
        // No `match` on byte strings: the checker takes one apart byte by byte, and three goals of some twenty cases stay open.
        if kind == mirror::KIND {
            Ok(TcActionOption::Mirror(TcActionMirrorOption::parse(buf)?))
        } else if kind == nat::KIND {
            Ok(TcActionOption::Nat(TcActionNatOption::parse(buf)?))
        } else if kind == tunnel_key::KIND {
            Ok(TcActionOption::TunnelKey(TcActionTunnelKeyOption::parse(buf)?))
        } else {
            Ok(TcActionOption::Other(DefaultNla::from(*buf)))
        }
    }
}

// By cases and no `dyn`: the kinds are known, and a contract names the case.
impl<'a> Nla for TcActionOption<'a> {
    ghost word = { option_word };

    ghost payload = { option_payload };

    fn value_len(&self) -> usize {
        match self {
            TcActionOption::Mirror(option) => option.value_len(),
            TcActionOption::Nat(option) => option.value_len(),
            TcActionOption::TunnelKey(option) => option.value_len(),
            TcActionOption::Other(attribute) => attribute.value_len(),
        }
    }

    fn kind(&self) -> u16 {
        match self {
            TcActionOption::Mirror(option) => option.kind(),
            TcActionOption::Nat(option) => option.kind(),
            TcActionOption::TunnelKey(option) => option.kind(),
            TcActionOption::Other(attribute) => attribute.kind(),
        }
    }

    fn emit_value(&self, buffer: &mut [u8]) -> bool {
        match self {
            TcActionOption::Mirror(option) => option.emit_value(buffer),
            TcActionOption::Nat(option) => option.emit_value(buffer),
            TcActionOption::TunnelKey(option) => option.emit_value(buffer),
            TcActionOption::Other(attribute) => attribute.emit_value(buffer),
        }
    }
}
