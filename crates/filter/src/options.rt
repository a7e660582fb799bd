// The options of a filter, read with a book.
ghost use Rattle.std.specs.Prelude.{◌≡◌, IfOk};
ghost use Rattle.model.specs.Book.{Meaning};
ghost use Rattle.model.specs.Faults.{answered};
ghost use Rattle.filter.specs.Summaries.{option_summary};
ghost use Rattle.filter.specs.WriteOut.{payload_length};
ghost use Rattle.tc_filter.specs.Leaves.{content_meant};
ghost use Rattle.filter.specs.Held.{HeldBy, content_heard};
ghost use Rattle.filter.specs.Reads.{option_inside};

use crate::actions::Actions;
use crate::emission::write_nla;
use crate::form::{Form, read_inside, write_inside};
use crate::part::Part;
use crate::tally::Tally;
use model::fault::{Fault, Layer};
use netlink::buffer::NlaBuffer;
use netlink::nla::Nla;
use payload::error::ErrorContext;
use tc::book::Book;
use tc_filter::cls_u32::{TCA_U32_ACT, TcFilterU32Option};
use tc_filter::content::{Content, option_content};

/// The options of a filter.
#[derive_where(Clone, Copy)]
pub(crate) struct Options<'a, B> {
    pub(crate) book: &'a B,
}

/// What an option holds, as far as no book is asked.
fn inside<'a>(nla: &NlaBuffer<'a>) -> Result<Content<'a>, Fault>
    ensures reads { (m : Meaning) → option_inside m (content_heard result) ≡ option_summary m nla.now.place nla.now.word nla.now.value.now }
    ensures held { IfOk result (λ c. HeldBy nla.now (content_meant c)) }
{
    let option = TcFilterU32Option::parse(nla).context(nla.place, Layer::FilterOption)?;
    Ok(option_content(option))
}

impl<'a, B: Book> Options<'a, B> {
    /// How many bytes the payload of an option is written as.
    pub(crate) fn payload_len(&self, part: &Part<'_>) -> Result<usize, Fault>
        ensures { answered result ≡ payload_length (option_summary (B.Book.meaning self.now.book.now) part.now.nla.place part.now.nla.word part.now.nla.value.now) }
    {
        match inside(&part.nla)? {
            Content::Leaf(leaf) => Ok(leaf.value_len()),
            Content::Nest(nest) => {
                let actions = Actions { book: self.book };
                let row = read_inside(&actions, &Part { nla: nest }, Layer::Action)?;
                Ok(row.length)
            }
        }
    }
}

impl<'a, B: Book> Form for Options<'a, B> {
    ghost reads = { λ s. option_summary (B.Book.meaning s.book.now) };

    fn read(&self, part: &Part<'_>) -> Result<Tally, Fault> {
        match inside(&part.nla)? {
            Content::Leaf(leaf) => Ok(Tally::leaf(leaf.value_len())),
            Content::Nest(nest) => {
                let actions = Actions { book: self.book };
                let row = read_inside(&actions, &Part { nla: nest }, Layer::Action)?;
                Ok(row.nest(row.items, row.action_options))
            }
        }
    }

    fn write(&self, part: &Part<'_>, output: &mut [u8]) -> Result<usize, Fault> {
        match inside(&part.nla)? {
            Content::Leaf(leaf) => Ok(write_nla(&leaf, output)),
            Content::Nest(nest) => {
                let actions = Actions { book: self.book };
                write_inside(
                    &actions,
                    &Part { nla: nest },
                    Layer::Action,
                    TCA_U32_ACT,
                    output,
                )
            }
        }
    }
}
