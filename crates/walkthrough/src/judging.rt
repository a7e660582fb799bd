// The shipped book at work: every action option of a filter, judged by the kind of its action.
use model::fault::Layer;
use netlink::buffer::NlaBuffer;
use netlink::walker::NlasIterator;
use payload::text::parse_string;
use std::fmt;
use std::fmt::Display;
use tc::book::Book;
use tc::shipped::ShippedBook;
use tc_filter::action_attribute::{TCA_ACT_KIND, TCA_ACT_OPTIONS};
use tc_filter::cls_u32::TCA_U32_ACT;
use tc_options::mirror::TcActionMirrorOption;
use tc_options::option::TcActionOption;
use tc_records::action::TcActionGeneric;
use tc_records::mirror::TcMirror;
use tc_records::parameters::outcome_of;

/// The parameters of a mirror action, field by field: the common head, then what the action does, and to which interface.
#[derive(Clone, Copy)]
struct Parameters(TcMirror);

impl fmt::Display for Parameters {
    fn fmt<W: fmt::Write>(&self, f: &mut fmt::Formatter<W>) -> fmt::Result {
        let TcActionGeneric {
            index,
            capab,
            action: _,
            refcnt,
            bindcnt,
        } = self.0.generic;
        let outcome = outcome_of(&self.0);
        let number = i32::from(outcome);
        writeln!(
            f,
            "  index {index}, capab {capab}, outcome {outcome:?} ({number}), refcnt {refcnt}, bindcnt {bindcnt}"
        )?;
        let action = self.0.eaction;
        let number = i32::from(action);
        let interface = self.0.ifindex;
        writeln!(
            f,
            "  mirror action {action:?} ({number}), interface {interface}"
        )
    }
}

/// An option of an action of a kind.
#[derive(Clone, Copy)]
struct ActionOption<'a> {
    kind: &'a str,
    nla: NlaBuffer<'a>,
}

impl<'a> ActionOption<'a> {
    /// Writes what the book says of the option.
    fn write_judgement<W: fmt::Write>(&self, f: &mut fmt::Formatter<W>) -> fmt::Result {
        let ActionOption { kind, nla } = *self;
        let place = nla.place;
        let word = nla.word;
        let length = nla.value.len();
        write!(
            f,
            "place {place}, word {word:04X}, {length} bytes under \"{kind}\": "
        )?;
        match ShippedBook.judge(kind.as_bytes(), word, nla.value) {
            Ok(judged) => {
                let word = judged.word;
                let length = judged.length;
                writeln!(f, "written as word {word:04X} with {length} bytes")
            }
            Err(refusal) => {
                let number = refusal.number;
                let need = refusal.need;
                writeln!(f, "refused by number {number}, {need} bytes are wanted")
            }
        }
    }
}

impl<'a> fmt::Display for ActionOption<'a> {
    fn fmt<W: fmt::Write>(&self, f: &mut fmt::Formatter<W>) -> fmt::Result {
        self.write_judgement(f)?;
        match TcActionOption::parse(self.kind.as_bytes(), &self.nla) {
            Ok(TcActionOption::Mirror(TcActionMirrorOption::Parms(parameters))) => {
                Parameters(parameters).fmt(f)
            }
            _ => Ok(()),
        }
    }
}

/// An action, as what the book says of each of its options.
#[derive(Clone, Copy)]
struct Action<'a>(NlaBuffer<'a>);

impl<'a> Action<'a> {
    /// The action's kind text: that of its first kind that is a text.
    fn kind(&self) -> &'a str {
        let attributes = self.0.nested(Layer::ActionAttribute).filter_map(Result::ok);
        let mut kinds = attributes.filter(|nla| nla.kind() == TCA_ACT_KIND);
        kinds
            .find_map(|nla| parse_string(nla.value).ok())
            .unwrap_or("")
    }
}

impl<'a> fmt::Display for Action<'a> {
    fn fmt<W: fmt::Write>(&self, f: &mut fmt::Formatter<W>) -> fmt::Result {
        let kind = self.kind();
        let attributes = self.0.nested(Layer::ActionAttribute).filter_map(Result::ok);
        for options in attributes.filter(|nla| nla.kind() == TCA_ACT_OPTIONS) {
            for nla in options.nested(Layer::ActionOption).filter_map(Result::ok) {
                ActionOption { kind, nla }.fmt(f)?;
            }
        }
        Ok(())
    }
}

/// What the book says of each option in the actions of a filter.
#[derive(Clone, Copy)]
pub(crate) struct Judgements<'a>(pub(crate) &'a [u8]);

impl<'a> fmt::Display for Judgements<'a> {
    fn fmt<W: fmt::Write>(&self, f: &mut fmt::Formatter<W>) -> fmt::Result {
        let options = NlasIterator::new(self.0, Layer::FilterOption).filter_map(Result::ok);
        for actions in options.filter(|nla| nla.kind() == TCA_U32_ACT) {
            for action in actions.nested(Layer::Action).filter_map(Result::ok) {
                Action(action).fmt(f)?;
            }
        }
        Ok(())
    }
}
