// The actions of a filter, read with a book.
ghost use Rattle.filter.specs.Summaries.{action_summary};

use crate::attributes::Attributes;
use crate::form::{Form, read_inside, write_inside};
use crate::part::Part;
use crate::tally::Tally;
use model::fault::{Fault, Layer};
use tc::book::Book;
use tc_filter::action::TcAction;

/// The actions of a filter.
#[derive_where(Clone, Copy)]
pub(crate) struct Actions<'a, B> {
    pub(crate) book: &'a B,
}

impl<'a, B: Book> Form for Actions<'a, B> {
    ghost reads = { λ s. action_summary (B.Book.meaning s.book.now) };

    fn read(&self, part: &Part<'_>) -> Result<Tally, Fault> {
        let action = TcAction::parse(&part.nla)?;
        let attributes = Attributes {
            book: self.book,
            kind: action.kind.as_bytes(),
        };
        let row = read_inside(&attributes, part, Layer::ActionAttribute)?;
        Ok(row.nest(0, row.action_options))
    }

    fn write(&self, part: &Part<'_>, output: &mut [u8]) -> Result<usize, Fault> {
        let action = TcAction::parse(&part.nla)?;
        let attributes = Attributes {
            book: self.book,
            kind: action.kind.as_bytes(),
        };
        write_inside(
            &attributes,
            part,
            Layer::ActionAttribute,
            action.tab,
            output,
        )
    }
}
