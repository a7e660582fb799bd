// The parameters of an address translation.
use crate::parms::Parameters;
use payload::ip::Ipv4Addr;
use shown::record::Head;
use std::fmt;
use std::fmt::Display;
use tc_records::nat::TcNat;

impl Parameters for TcNat {
    fn show<W: fmt::Write>(&self, f: &mut fmt::Formatter<W>) -> fmt::Result {
        let old = Ipv4Addr::from(self.old_addr);
        let new = Ipv4Addr::from(self.new_addr);
        let mask = Ipv4Addr::from(self.mask);
        let flags = self.flags;
        let head = Head(self.generic);
        write!(
            f,
            "nat {old} to {new} mask {mask}, flags 0x{flags:08x}, {head}"
        )
    }
}
