// An option of a filter, and its actions below it.
use crate::action::Action;
use crate::selector::Selector;
use cursors::actions::Actions;
use netlink::buffer::NlaBuffer;
use shown::attribute::AsItStands;
use shown::bytes::Bytes;
use shown::named::Named;
use std::fmt;
use std::fmt::Display;
use tc_filter::cls_u32::TcFilterU32Option;

/// A list of actions.
#[derive(Clone, Copy)]
struct ActionList<'a>(NlaBuffer<'a>);

impl<'a> fmt::Display for ActionList<'a> {
    fn fmt<W: fmt::Write>(&self, f: &mut fmt::Formatter<W>) -> fmt::Result {
        f.write_str("actions\n")?;
        for action in Actions::new(&self.0).filter_map(Result::ok) {
            Action(action).fmt(f)?;
        }
        Ok(())
    }
}

/// A number in hexadecimal.
#[derive(Clone, Copy)]
struct Hex(u32);

impl fmt::Display for Hex {
    fn fmt<W: fmt::Write>(&self, f: &mut fmt::Formatter<W>) -> fmt::Result {
        let number = self.0;
        write!(f, "0x{number:08x}")
    }
}

/// An option of a filter.
#[derive(Clone, Copy)]
pub struct FilterOption<'a>(pub TcFilterU32Option<'a>);

impl<'a> fmt::Display for FilterOption<'a> {
    fn fmt<W: fmt::Write>(&self, f: &mut fmt::Formatter<W>) -> fmt::Result {
        match self.0 {
            TcFilterU32Option::ClassId(class) => writeln!(f, "{}", Named("class", class)),
            TcFilterU32Option::Hash(number) => writeln!(f, "{}", Named("hash", Hex(number))),
            TcFilterU32Option::Link(number) => writeln!(f, "{}", Named("link", Hex(number))),
            TcFilterU32Option::Divisor(number) => writeln!(f, "{}", Named("divisor", number)),
            TcFilterU32Option::Selector(selector) => Selector(selector).fmt(f),
            TcFilterU32Option::Police(value) => writeln!(f, "{}", Named("police", Bytes(value))),
            TcFilterU32Option::Action(actions) => ActionList(actions).fmt(f),
            TcFilterU32Option::Indev(value) => writeln!(f, "{}", Named("indev", Bytes(value))),
            TcFilterU32Option::Pnct(value) => writeln!(f, "{}", Named("pcnt", Bytes(value))),
            TcFilterU32Option::Mark(value) => writeln!(f, "{}", Named("mark", Bytes(value))),
            TcFilterU32Option::Flags(number) => writeln!(f, "{}", Named("flags", Hex(number))),
            TcFilterU32Option::Other(attribute) => {
                let attribute = AsItStands(attribute);
                writeln!(f, "{attribute}")
            }
        }
    }
}
