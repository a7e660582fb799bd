// The options of a tunnel key action.
use shown::address::Groups;
use shown::attribute::AsItStands;
use shown::named::Named;
use shown::record::{Head, Times};
use std::fmt;
use std::fmt::Display;
use tc_options::tunnel_key::TcActionTunnelKeyOption;
use tc_records::tunnel_key::TcTunnelKey;

/// The parameters of a tunnel key action.
#[derive(Clone, Copy)]
struct TunnelKey(TcTunnelKey);

impl fmt::Display for TunnelKey {
    fn fmt<W: fmt::Write>(&self, f: &mut fmt::Formatter<W>) -> fmt::Result {
        let action = self.0.t_action;
        let head = Head(self.0.generic);
        write!(f, "tunnel key action {action}, {head}")
    }
}

/// Whether packets go without a checksum.
fn checksum_words(without: bool) -> &'static str {
    if without {
        "without checksum"
    } else {
        "with checksum"
    }
}

/// An option of a tunnel key action.
#[derive(Clone, Copy)]
pub struct TunnelKeyOption<'a>(pub TcActionTunnelKeyOption<'a>);

impl<'a> fmt::Display for TunnelKeyOption<'a> {
    fn fmt<W: fmt::Write>(&self, f: &mut fmt::Formatter<W>) -> fmt::Result {
        match self.0 {
            TcActionTunnelKeyOption::Tm(times) => Times(times).fmt(f),
            TcActionTunnelKeyOption::Parms(parameters) => TunnelKey(parameters).fmt(f),
            TcActionTunnelKeyOption::EncIpv4Src(address) => Named("source", address).fmt(f),
            TcActionTunnelKeyOption::EncIpv4Dst(address) => Named("destination", address).fmt(f),
            TcActionTunnelKeyOption::EncIpv6Src(address) => Named("source", Groups(address)).fmt(f),
            TcActionTunnelKeyOption::EncIpv6Dst(address) => Named(
                "destination",
                Groups(address),
            ).fmt(f),
            TcActionTunnelKeyOption::EncKeyId(id) => write!(f, "key id {id}"),
            TcActionTunnelKeyOption::EncDstPort(port) => write!(f, "destination port {port}"),
            TcActionTunnelKeyOption::NoCsum(without) => f.write_str(checksum_words(without)),
            TcActionTunnelKeyOption::EncTos(tos) => write!(f, "tos 0x{tos:02x}"),
            TcActionTunnelKeyOption::EncTtl(ttl) => write!(f, "ttl {ttl}"),
            TcActionTunnelKeyOption::Other(attribute) => AsItStands(attribute).fmt(f),
        }
    }
}
