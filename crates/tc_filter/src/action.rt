// An action: its tab, its kind, and its attributes.
ghost use Rattle.std.specs.Prelude.{◌≡◌};
ghost use Rattle.tc_filter.specs.Kinds.{kind_heard, kind_found, action_heard, action_found, action_reads, InMemory};
ghost use Rattle.model.specs.Book.{Meaning};
ghost use Rattle.model.specs.Reading.{read_action};

use crate::action_attribute::TCA_ACT_KIND;
use model::fault::{Cause, Fault, Layer};
use netlink::buffer::NlaBuffer;
use payload::error::ErrorContext;
use payload::text::parse_string;

/// An action.
#[derive(Clone, Copy)]
pub struct TcAction<'a> {
    /// The type in its head.
    pub tab: u16,
    /// Its kind, as `mirred`, without the zero after it. All its options are judged by it.
    pub kind: &'a str,
    /// The action as it stands: an attribute whose payload is the action's attributes.
    pub attributes: NlaBuffer<'a>,
}

// Three states: that there are several may be told only when every text behind them was looked at too.
/// The kind texts that were seen in an action so far.
#[derive(Clone, Copy)]
enum Seen<'a> {
    Nothing,
    One(&'a str),
    Several,
}

/// The kind text of an action. Every head and every kind text is looked at first, and then that there is just one.
fn kind_of<'a>(action: &NlaBuffer<'a>) -> Result<&'a str, Fault>
    ensures { kind_heard result ≡ kind_found action.now }
{
    let mut seen = Seen::Nothing;
    for attribute in action.nested(Layer::ActionAttribute) {
        let attribute = attribute?;
        if attribute.kind() == TCA_ACT_KIND {
            let text = parse_string(attribute.value).context(
                attribute.place,
                Layer::ActionAttribute,
            )?;
            seen = match seen {
                Seen::Nothing => Seen::One(text),
                _ => Seen::Several,
            };
        }
    }
    match seen {
        Seen::Nothing => Err(Fault::new(Cause::NoKind, action.place, Layer::Action)),
        Seen::One(text) => Ok(text),
        Seen::Several => Err(Fault::new(Cause::SeveralKinds, action.place, Layer::Action)),
    }
}

impl<'a> TcAction<'a> {
    /// Finds an action's kind, wherever it stands: cause 10 where there is none, and 11 where there are several, both at the action's head.
    pub fn parse(buf: &NlaBuffer<'a>) -> Result<TcAction<'a>, Fault>
        ensures found { action_heard result ≡ action_found buf.now }
        ensures reads { InMemory buf.now → (m : Meaning) → action_reads m result ≡ read_action m buf.now.place buf.now.word buf.now.value.now }
    {
        let kind = kind_of(buf)?;
        Ok(TcAction {
            tab: buf.kind(),
            kind,
            attributes: *buf,
        })
    }
}
