// A selector, and its keys below it.
use std::fmt;
use std::fmt::Display;
use tc_records::cls_u32::TcU32Key;
use tc_records::record::Record;
use tc_records::selector::TcU32Selector;

/// A key of a selector.
#[derive(Clone, Copy)]
struct Match(TcU32Key);

impl fmt::Display for Match {
    fn fmt<W: fmt::Write>(&self, f: &mut fmt::Formatter<W>) -> fmt::Result {
        let TcU32Key {
            mask,
            val,
            off,
            offmask,
        } = self.0;
        writeln!(
            f,
            "  match {val:08x}/{mask:08x} at {off}, offmask {offmask}"
        )
    }
}

/// A selector: a line for its own numbers, and one for each key.
#[derive(Clone, Copy)]
pub struct Selector<'a>(pub TcU32Selector<'a>);

impl<'a> Selector<'a> {
    /// The selector's own numbers.
    fn write_numbers<W: fmt::Write>(&self, f: &mut fmt::Formatter<W>) -> fmt::Result {
        let TcU32Selector {
            flags,
            offshift,
            nkeys,
            offmask,
            off,
            offoff,
            hoff,
            hmask,
            keys: _,
        } = self.0;
        writeln!(
            f,
            "selector flags 0x{flags:02x}, offshift {offshift}, offmask 0x{offmask:04x}, off {off}, offoff {offoff}, hoff {hoff}, hmask 0x{hmask:08x}, keys {nkeys}"
        )
    }
}

impl<'a> fmt::Display for Selector<'a> {
    fn fmt<W: fmt::Write>(&self, f: &mut fmt::Formatter<W>) -> fmt::Result {
        self.write_numbers(f)?;
        let Selector(selector) = *self;
        for key in (0..usize::from(selector.nkeys)).filter_map(|i| selector.key(i)) {
            Match(key).fmt(f)?;
        }
        Ok(())
    }
}
