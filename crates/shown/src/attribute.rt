// An attribute that is kept as it stands.
use crate::bytes::Bytes;
use netlink::default_nla::DefaultNla;
use std::fmt;

/// An attribute by its word, with the flags, and its payload.
#[derive(Clone, Copy)]
pub struct AsItStands<'a>(pub DefaultNla<'a>);

impl<'a> fmt::Display for AsItStands<'a> {
    fn fmt<W: fmt::Write>(&self, f: &mut fmt::Formatter<W>) -> fmt::Result {
        let word = self.0.word;
        let value = Bytes(self.0.value);
        write!(f, "attribute 0x{word:04x} {value}")
    }
}
