// The attributes of an action, read with a book.
ghost use Rattle.std.specs.Prelude.{◌≡◌, ℕ, List, IfOk};
ghost use Rattle.model.specs.Book.{Meaning};
ghost use Rattle.filter.specs.Summaries.{attribute_summary};
ghost use Rattle.tc_filter.specs.Leaves.{content_meant};
ghost use Rattle.filter.specs.Held.{HeldBy, content_heard};
ghost use Rattle.filter.specs.Reads.{attribute_inside};

use crate::action_options::ActionOptions;
use crate::emission::write_nla;
use crate::form::{Form, read_inside, write_inside};
use crate::part::Part;
use crate::tally::Tally;
use model::fault::{Fault, Layer};
use netlink::buffer::NlaBuffer;
use netlink::nla::{NLA_F_NESTED, Nla};
use payload::error::ErrorContext;
use tc::book::Book;
use tc_filter::action_attribute::{TCA_ACT_OPTIONS, TcActionAttribute};
use tc_filter::content::{Content, attribute_content};

/// The word of an action's options: their type, with the flag of nested attributes.
const OPTIONS_WORD: u16 = NLA_F_NESTED + TCA_ACT_OPTIONS;

/// The attributes of an action of one kind.
#[derive_where(Clone, Copy)]
pub(crate) struct Attributes<'a, 'k, B> {
    pub(crate) book: &'a B,
    pub(crate) kind: &'k [u8],
}

// As for a filter's options, but what is parsed has another type and layer, and its contract holds for every kind: one function of both would be no plainer.
/// What an attribute holds, as far as no book is asked.
fn inside<'a>(nla: &NlaBuffer<'a>) -> Result<Content<'a>, Fault>
    ensures reads { (m : Meaning) (k : List ℕ) → attribute_inside m k (content_heard result) ≡ attribute_summary m k nla.now.place nla.now.word nla.now.value.now }
    ensures held { IfOk result (λ c. HeldBy nla.now (content_meant c)) }
{
    let attribute = TcActionAttribute::parse(nla).context(nla.place, Layer::ActionAttribute)?;
    Ok(attribute_content(attribute))
}

impl<'a, 'k, B: Book> Form for Attributes<'a, 'k, B> {
    ghost reads = { λ s. attribute_summary (B.Book.meaning s.book.now) s.kind.now };

    fn read(&self, part: &Part<'_>) -> Result<Tally, Fault> {
        match inside(&part.nla)? {
            Content::Leaf(leaf) => Ok(Tally::leaf(leaf.value_len())),
            Content::Nest(nest) => {
                let options = ActionOptions {
                    book: self.book,
                    kind: self.kind,
                };
                let row = read_inside(&options, &Part { nla: nest }, Layer::ActionOption)?;
                Ok(row.nest(0, row.items))
            }
        }
    }

    fn write(&self, part: &Part<'_>, output: &mut [u8]) -> Result<usize, Fault> {
        match inside(&part.nla)? {
            Content::Leaf(leaf) => Ok(write_nla(&leaf, output)),
            Content::Nest(nest) => {
                let options = ActionOptions {
                    book: self.book,
                    kind: self.kind,
                };
                write_inside(
                    &options,
                    &Part { nla: nest },
                    Layer::ActionOption,
                    OPTIONS_WORD,
                    output,
                )
            }
        }
    }
}
