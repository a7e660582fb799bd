// Internet addresses from a payload of just their length.
ghost use Rattle.std.specs.Prelude.{◌≡◌};
ghost use Rattle.model.specs.Numbers.{be_bytes};
ghost use Rattle.payload.specs.Errors.{decoded};
ghost use Rattle.payload.specs.Payloads.{exactly, address, address_part};

use crate::error::DecodeError;
use model::fault::Cause;
use std::fmt;

// Not `std::net::Ipv4Addr`: that a number's highest byte comes first is promised here, and an edit of it is refused.
/// An IPv4 address, by its four bytes as they stand in the payload.
#[derive(Clone, Copy)]
pub struct Ipv4Addr {
    pub octets: [u8; 4],
}

/// The address of a number: its highest byte first.
impl From<u32> for Ipv4Addr {
    ghost from_gives = { λ number r. r.octets ≡ be_bytes 4 number };

    fn from(number: u32) -> Self {
        Ipv4Addr {
            octets: number.to_be_bytes(),
        }
    }
}

impl fmt::Display for Ipv4Addr {
    fn fmt<W: fmt::Write>(&self, f: &mut fmt::Formatter<W>) -> fmt::Result {
        let [a, b, c, d] = self.octets;
        write!(f, "{a}.{b}.{c}.{d}")
    }
}

// A slice and no `&[u8; 16]`: it is this part of the payload, and `as_array` promises the same bytes only.
/// An IPv6 address: the 16 bytes of the payload.
#[derive(Clone, Copy)]
pub struct Ipv6Addr<'a> {
    pub octets: &'a [u8],
}

/// An IPv4 address from a payload of 4 bytes.
pub fn parse_ipv4_addr(raw: &[u8]) -> Result<Ipv4Addr, DecodeError>
    ensures { decoded result ≡ exactly 4 address raw.now }
{
    match raw.as_array::<4>() {
        Some(octets) => Ok(Ipv4Addr { octets: *octets }),
        None => Err(DecodeError::new(Cause::WrongLength, 4)),
    }
}

/// An IPv6 address from a payload of 16 bytes.
pub fn parse_ipv6_addr<'a>(raw: &'a [u8]) -> Result<Ipv6Addr<'a>, DecodeError>
    ensures { decoded result ≡ exactly 16 (λ _. address_part raw.entry) raw.now }
{
    if raw.len() == 16 {
        Ok(Ipv6Addr { octets: raw })
    } else {
        Err(DecodeError::new(Cause::WrongLength, 16))
    }
}
