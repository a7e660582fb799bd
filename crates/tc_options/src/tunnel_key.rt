// The options of a tunnel key action.
ghost use Rattle.tc_options.specs.TunnelKeys.{tunnel_key_option, tunnel_key_word, tunnel_key_payload};

use netlink::buffer::NlaBuffer;
use netlink::default_nla::DefaultNla;
use netlink::nla::Nla;
use netlink::overwrite::fill;
use netlink::traits::Parseable;
use payload::error::DecodeError;
use payload::ip::{Ipv4Addr, Ipv6Addr, parse_ipv4_addr, parse_ipv6_addr};
use payload::number::BigEndian;
use payload::parsers::parse;
use tc_records::action::Tcf;
use tc_records::record::{Record, parse_record};
use tc_records::tunnel_key::TcTunnelKey;

/// The kind of a tunnel key action.
pub const KIND: &[u8] = b"tunnel_key";

const TCA_TUNNEL_KEY_TM: u16 = 1;

const TCA_TUNNEL_KEY_PARMS: u16 = 2;

const TCA_TUNNEL_KEY_ENC_IPV4_SRC: u16 = 3;

const TCA_TUNNEL_KEY_ENC_IPV4_DST: u16 = 4;

const TCA_TUNNEL_KEY_ENC_IPV6_SRC: u16 = 5;

const TCA_TUNNEL_KEY_ENC_IPV6_DST: u16 = 6;

const TCA_TUNNEL_KEY_ENC_KEY_ID: u16 = 7;

const TCA_TUNNEL_KEY_ENC_DST_PORT: u16 = 9;

const TCA_TUNNEL_KEY_NO_CSUM: u16 = 10;

const TCA_TUNNEL_KEY_ENC_TOS: u16 = 12;

const TCA_TUNNEL_KEY_ENC_TTL: u16 = 13;

/// An option of a tunnel key action.
#[derive(Clone, Copy)]
pub enum TcActionTunnelKeyOption<'a> {
    /// When the action was installed and used.
    Tm(Tcf),
    /// The action's parameters.
    Parms(TcTunnelKey),
    /// The IPv4 address of the near end of the tunnel.
    EncIpv4Src(Ipv4Addr),
    /// The IPv4 address of its far end.
    EncIpv4Dst(Ipv4Addr),
    /// The IPv6 address of the near end.
    EncIpv6Src(Ipv6Addr<'a>),
    /// The IPv6 address of the far end.
    EncIpv6Dst(Ipv6Addr<'a>),
    /// The tunnel's key.
    EncKeyId(u32),
    /// The port of the far end.
    EncDstPort(u16),
    /// Whether packets go without a checksum.
    NoCsum(bool),
    /// The type of service of the packets.
    EncTos(u8),
    /// Their time to live.
    EncTtl(u8),
    /// An option of any other type.
    Other(DefaultNla<'a>),
}

impl<'a> Parseable<NlaBuffer<'a>> for TcActionTunnelKeyOption<'a> {
    ghost parsed = { tunnel_key_option };

    fn parse(buf: &NlaBuffer<'a>) -> Result<TcActionTunnelKeyOption<'a>, DecodeError> {
        Ok(match buf.kind() {
            TCA_TUNNEL_KEY_TM => TcActionTunnelKeyOption::Tm(parse_record(buf.value)?),
            TCA_TUNNEL_KEY_PARMS => TcActionTunnelKeyOption::Parms(parse_record(buf.value)?),
            TCA_TUNNEL_KEY_ENC_IPV4_SRC => {
                TcActionTunnelKeyOption::EncIpv4Src(parse_ipv4_addr(buf.value)?)
            }
            TCA_TUNNEL_KEY_ENC_IPV4_DST => {
                TcActionTunnelKeyOption::EncIpv4Dst(parse_ipv4_addr(buf.value)?)
            }
            TCA_TUNNEL_KEY_ENC_IPV6_SRC => {
                TcActionTunnelKeyOption::EncIpv6Src(parse_ipv6_addr(buf.value)?)
            }
            TCA_TUNNEL_KEY_ENC_IPV6_DST => {
                TcActionTunnelKeyOption::EncIpv6Dst(parse_ipv6_addr(buf.value)?)
            }
            TCA_TUNNEL_KEY_ENC_KEY_ID => {
                TcActionTunnelKeyOption::EncKeyId(parse::<BigEndian<u32>, 4>(buf.value)?.0)
            }
            TCA_TUNNEL_KEY_ENC_DST_PORT => {
                TcActionTunnelKeyOption::EncDstPort(parse::<BigEndian<u16>, 2>(buf.value)?.0)
            }
            TCA_TUNNEL_KEY_NO_CSUM => {
                TcActionTunnelKeyOption::NoCsum(parse::<u8, 1>(buf.value)? != 0)
            }
            TCA_TUNNEL_KEY_ENC_TOS => TcActionTunnelKeyOption::EncTos(parse(buf.value)?),
            TCA_TUNNEL_KEY_ENC_TTL => TcActionTunnelKeyOption::EncTtl(parse(buf.value)?),
            _ => TcActionTunnelKeyOption::Other(DefaultNla::from(*buf)),
        })
    }
}

impl<'a> Nla for TcActionTunnelKeyOption<'a> {
    ghost word = { tunnel_key_word };

    ghost payload = { tunnel_key_payload };

    fn value_len(&self) -> usize {
        match self {
            TcActionTunnelKeyOption::Tm(_) => Tcf::size(),
            TcActionTunnelKeyOption::Parms(_) => TcTunnelKey::size(),
            TcActionTunnelKeyOption::EncIpv4Src(address)
            | TcActionTunnelKeyOption::EncIpv4Dst(address) => address.octets.as_slice().len(),
            TcActionTunnelKeyOption::EncKeyId(_) => 4,
            TcActionTunnelKeyOption::EncIpv6Src(address)
            | TcActionTunnelKeyOption::EncIpv6Dst(address) => address.octets.len(),
            TcActionTunnelKeyOption::EncDstPort(_) => 2,
            TcActionTunnelKeyOption::NoCsum(_)
            | TcActionTunnelKeyOption::EncTos(_)
            | TcActionTunnelKeyOption::EncTtl(_) => 1,
            TcActionTunnelKeyOption::Other(attribute) => attribute.value_len(),
        }
    }

    fn kind(&self) -> u16 {
        match self {
            TcActionTunnelKeyOption::Tm(_) => TCA_TUNNEL_KEY_TM,
            TcActionTunnelKeyOption::Parms(_) => TCA_TUNNEL_KEY_PARMS,
            TcActionTunnelKeyOption::EncIpv4Src(_) => TCA_TUNNEL_KEY_ENC_IPV4_SRC,
            TcActionTunnelKeyOption::EncIpv4Dst(_) => TCA_TUNNEL_KEY_ENC_IPV4_DST,
            TcActionTunnelKeyOption::EncIpv6Src(_) => TCA_TUNNEL_KEY_ENC_IPV6_SRC,
            TcActionTunnelKeyOption::EncIpv6Dst(_) => TCA_TUNNEL_KEY_ENC_IPV6_DST,
            TcActionTunnelKeyOption::EncKeyId(_) => TCA_TUNNEL_KEY_ENC_KEY_ID,
            TcActionTunnelKeyOption::EncDstPort(_) => TCA_TUNNEL_KEY_ENC_DST_PORT,
            TcActionTunnelKeyOption::NoCsum(_) => TCA_TUNNEL_KEY_NO_CSUM,
            TcActionTunnelKeyOption::EncTos(_) => TCA_TUNNEL_KEY_ENC_TOS,
            TcActionTunnelKeyOption::EncTtl(_) => TCA_TUNNEL_KEY_ENC_TTL,
            TcActionTunnelKeyOption::Other(attribute) => attribute.kind(),
        }
    }

    fn emit_value(&self, buffer: &mut [u8]) -> bool {
        match self {
            TcActionTunnelKeyOption::Tm(times) => times.write(buffer),
            TcActionTunnelKeyOption::Parms(parameters) => parameters.write(buffer),
            TcActionTunnelKeyOption::EncIpv4Src(address)
            | TcActionTunnelKeyOption::EncIpv4Dst(address) => fill(buffer, &address.octets),
            TcActionTunnelKeyOption::EncIpv6Src(address)
            | TcActionTunnelKeyOption::EncIpv6Dst(address) => fill(buffer, address.octets),
            TcActionTunnelKeyOption::EncKeyId(id) => fill(buffer, &id.to_be_bytes()),
            TcActionTunnelKeyOption::EncDstPort(port) => fill(buffer, &port.to_be_bytes()),
            TcActionTunnelKeyOption::NoCsum(without) => fill(buffer, &[u8::from(*without)]),
            TcActionTunnelKeyOption::EncTos(byte) | TcActionTunnelKeyOption::EncTtl(byte) => fill(
                buffer,
                &[*byte],
            ),
            TcActionTunnelKeyOption::Other(attribute) => attribute.emit_value(buffer),
        }
    }
}
