// The parameters of a mirror action.
use crate::parms::Parameters;
use shown::record::Head;
use std::fmt;
use std::fmt::Debug;
use tc_records::mirror::TcMirror;

impl Parameters for TcMirror {
    fn show<W: fmt::Write>(&self, f: &mut fmt::Formatter<W>) -> fmt::Result {
        let action = self.eaction;
        let interface = self.ifindex;
        let head = Head(self.generic);
        write!(f, "mirror {action:?} to interface {interface}, {head}")
    }
}
