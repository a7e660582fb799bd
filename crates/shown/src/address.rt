// IPv6 addresses.
use payload::ip::Ipv6Addr;
use std::fmt;

/// An IPv6 address as groups of 16 bits in hexadecimal, every group written.
#[derive(Clone, Copy)]
pub struct Groups<'a>(pub Ipv6Addr<'a>);

impl<'a> fmt::Display for Groups<'a> {
    fn fmt<W: fmt::Write>(&self, f: &mut fmt::Formatter<W>) -> fmt::Result {
        for (i, pair) in self.0.octets.chunks(2).enumerate() {
            if i > 0 {
                // No `join` writes into a formatter.
                f.write_str(":")?;
            }
            if let [high, low] = pair {
                let group = u16::from_be_bytes([*high, *low]);
                write!(f, "{group:x}")?;
            }
        }
        Ok(())
    }
}
