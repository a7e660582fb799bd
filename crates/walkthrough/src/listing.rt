// The attributes of a filter, a line each.
ghost use Rattle.std.specs.Prelude.{◌≡◌};
ghost use Rattle.walkthrough.specs.Nests.{layer_inside};

use model::fault::{Fault, Layer};
use netlink::buffer::NlaBuffer;
use netlink::walker::NlasIterator;
use payload::text::parse_string;
use std::fmt;
use std::fmt::Display;
use tc_filter::action_attribute::{TCA_ACT_KIND, TCA_ACT_OPTIONS};
use tc_filter::cls_u32::TCA_U32_ACT;

/// The layer of the attributes that the payload of an attribute holds, where it holds any: a list of actions, an action, an action's options.
fn inside(layer: Layer, kind: u16) -> Option<Layer>
    ensures { result ≡ layer_inside layer kind }
{
    match (layer, kind) {
        (Layer::FilterOption, TCA_U32_ACT) => Some(Layer::Action),
        (Layer::Action, _) => Some(Layer::ActionAttribute),
        (Layer::ActionAttribute, TCA_ACT_OPTIONS) => Some(Layer::ActionOption),
        _ => None,
    }
}

/// Bytes in hexadecimal, with blanks between them.
#[derive(Clone, Copy)]
struct Spaced<'a>(&'a [u8]);

impl<'a> fmt::Display for Spaced<'a> {
    fn fmt<W: fmt::Write>(&self, f: &mut fmt::Formatter<W>) -> fmt::Result {
        for (i, byte) in self.0.iter().enumerate() {
            if i > 0 {
                // No `join` writes into a formatter.
                f.write_str(" ")?;
            }
            write!(f, "{byte:02X}")?;
        }
        Ok(())
    }
}

/// How far an attribute's line is indented.
fn indent(layer: Layer) -> &'static str {
    match layer {
        Layer::FilterOption => "",
        Layer::Action => "  ",
        Layer::ActionAttribute => "    ",
        Layer::ActionOption => "      ",
    }
}

/// An attribute's line.
#[derive(Clone, Copy)]
struct Line<'a> {
    nla: NlaBuffer<'a>,
    layer: Layer,
}

impl<'a> Line<'a> {
    /// What the payload shows as: a kind by its text too, and one that holds attributes by its length alone.
    fn write_payload<W: fmt::Write>(&self, f: &mut fmt::Formatter<W>) -> fmt::Result {
        let kind = self.nla.kind();
        let value = self.nla.value;
        if inside(self.layer, kind).is_some() {
            let length = value.len();
            return write!(f, "{length} bytes of attributes");
        }
        let bytes = Spaced(value);
        match (self.layer, kind) {
            (Layer::ActionAttribute, TCA_ACT_KIND) => match parse_string(value) {
                Ok(text) => write!(f, "{bytes}, the text \"{text}\""),
                Err(_) => write!(f, "{bytes}, no text"),
            },
            _ => bytes.fmt(f),
        }
    }
}

impl<'a> fmt::Display for Line<'a> {
    fn fmt<W: fmt::Write>(&self, f: &mut fmt::Formatter<W>) -> fmt::Result {
        let Line { nla, layer } = *self;
        let space = indent(layer);
        let place = nla.place;
        let word = nla.word;
        let kind = nla.kind();
        write!(f, "{space}place {place}, word {word:04X}, type {kind}: ")?;
        self.write_payload(f)?;
        f.write_str("\n")
    }
}

/// A fault's line: where it is, what is wrong, and the numbers of its cause and layer.
#[derive(Clone, Copy)]
struct FaultLine(Fault);

impl fmt::Display for FaultLine {
    fn fmt<W: fmt::Write>(&self, f: &mut fmt::Formatter<W>) -> fmt::Result {
        let place = self.0.place;
        let words = self.0.cause;
        let cause = u8::from(self.0.cause);
        let kind = self.0.layer;
        let layer = u8::from(self.0.layer);
        writeln!(
            f,
            "place {place}, {kind}: {words} (cause {cause}, layer {layer})"
        )
    }
}

/// Writes a line for each attribute that the walk finds, and below it those inside it.
fn list<W: fmt::Write>(
    f: &mut fmt::Formatter<W>,
    walk: NlasIterator<'_>,
    layer: Layer,
) -> fmt::Result {
    for found in walk {
        match found {
            Ok(nla) => {
                Line { nla, layer }.fmt(f)?;
                if let Some(inner) = inside(layer, nla.kind()) {
                    list(f, nla.nested(inner), inner)?;
                }
            }
            Err(fault) => FaultLine(fault).fmt(f)?,
        }
    }
    Ok(())
}

/// A line for each attribute of a filter, those inside others indented below them.
#[derive(Clone, Copy)]
pub(crate) struct Listing<'a>(pub(crate) &'a [u8]);

impl<'a> fmt::Display for Listing<'a> {
    fn fmt<W: fmt::Write>(&self, f: &mut fmt::Formatter<W>) -> fmt::Result {
        let walk = NlasIterator::new(self.0, Layer::FilterOption);
        list(f, walk, Layer::FilterOption)
    }
}
