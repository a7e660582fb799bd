// Netlink attributes: walking them and writing them. The readers of their payloads are passed on.
#![tactic(auto)]

pub mod buffer;
pub mod default_nla;
pub mod nla;
pub mod overwrite;
pub mod traits;
pub mod walker;

pub use payload::error::{DecodeError, ErrorContext};
pub use payload::ip::{Ipv4Addr, Ipv6Addr, parse_ipv4_addr, parse_ipv6_addr};
pub use payload::number::{BigEndian, Number, number_at};
pub use payload::parsers::parse;
pub use payload::text::{is_utf8, parse_string};
