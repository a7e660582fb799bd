// An action, its attributes below it, and its options below these.
use cursors::attributes::Attributes;
use model::fault::Layer;
use netlink::buffer::NlaBuffer;
use shown::attribute::AsItStands;
use shown::bytes::{Bytes, Quoted};
use shown_options::option::ActionOption;
use std::fmt;
use std::fmt::Display;
use tc_filter::action::TcAction;
use tc_filter::action_attribute::TcActionAttribute;
use tc_options::option::TcActionOption;

/// The options of an action of a kind.
#[derive(Clone, Copy)]
struct Options<'a> {
    kind: &'a str,
    options: NlaBuffer<'a>,
}

impl<'a> fmt::Display for Options<'a> {
    fn fmt<W: fmt::Write>(&self, f: &mut fmt::Formatter<W>) -> fmt::Result {
        f.write_str("    options\n")?;
        let kind = self.kind.as_bytes();
        let found = self.options.nested(Layer::ActionOption);
        for option in found.filter_map(|nla| TcActionOption::parse(kind, &nla.ok()?).ok()) {
            let option = ActionOption(option);
            writeln!(f, "      {option}")?;
        }
        Ok(())
    }
}

/// An attribute of an action of a kind.
#[derive(Clone, Copy)]
struct Attribute<'a> {
    kind: &'a str,
    attribute: TcActionAttribute<'a>,
}

impl<'a> fmt::Display for Attribute<'a> {
    fn fmt<W: fmt::Write>(&self, f: &mut fmt::Formatter<W>) -> fmt::Result {
        let kind = self.kind;
        match self.attribute {
            TcActionAttribute::Kind(text) => {
                let text = Quoted(text);
                writeln!(f, "    kind {text}")
            }
            TcActionAttribute::Options(options) => Options { kind, options }.fmt(f),
            TcActionAttribute::Index(index) => writeln!(f, "    index {index}"),
            TcActionAttribute::Stats(value) => {
                let value = Bytes(value);
                writeln!(f, "    statistics {value}")
            }
            TcActionAttribute::Cookie(value) => {
                let value = Bytes(value);
                writeln!(f, "    cookie {value}")
            }
            TcActionAttribute::InHwCount(count) => writeln!(f, "    in hardware {count}"),
            TcActionAttribute::Other(attribute) => {
                let attribute = AsItStands(attribute);
                writeln!(f, "    {attribute}")
            }
        }
    }
}

/// An action: a line for itself, and below it one for each attribute.
#[derive(Clone, Copy)]
pub struct Action<'a>(pub TcAction<'a>);

impl<'a> fmt::Display for Action<'a> {
    fn fmt<W: fmt::Write>(&self, f: &mut fmt::Formatter<W>) -> fmt::Result {
        let tab = self.0.tab;
        let kind = self.0.kind;
        let text = Quoted(kind);
        writeln!(f, "  action {tab} {text}")?;
        for attribute in Attributes::new(&self.0).filter_map(Result::ok) {
            Attribute { kind, attribute }.fmt(f)?;
        }
        Ok(())
    }
}
