// The options of an action, as its book judges them.
ghost use Rattle.filter.specs.Summaries.{action_option_summary};

use crate::accepted::Accepted;
use crate::emission::write_nla;
use crate::form::Form;
use crate::part::Part;
use crate::tally::Tally;
use model::fault::{Fault, Layer};
use payload::error::ErrorContext;
use tc::book::Book;

// The layers of a filter are types of their own, though two and two hold the same: each is another implementation of `Form`.
/// The options of an action of one kind.
#[derive_where(Clone, Copy)]
pub(crate) struct ActionOptions<'a, 'k, B> {
    pub(crate) book: &'a B,
    pub(crate) kind: &'k [u8],
}

impl<'a, 'k, B: Book> Form for ActionOptions<'a, 'k, B> {
    ghost reads = { λ s. action_option_summary (B.Book.meaning s.book.now) s.kind.now };

    fn read(&self, part: &Part<'_>) -> Result<Tally, Fault> {
        let nla = &part.nla;
        let judged = self
            .book
            .judge(self.kind, nla.word, nla.value)
            .context(nla.place, Layer::ActionOption)?;
        Ok(Tally::leaf(judged.length))
    }

    fn write(&self, part: &Part<'_>, output: &mut [u8]) -> Result<usize, Fault> {
        let nla = part.nla;
        let judged = self
            .book
            .judge(self.kind, nla.word, nla.value)
            .context(part.nla.place, Layer::ActionOption)?;
        let option = Accepted {
            options: *self,
            nla,
            judged,
        };
        Ok(write_nla(&option, output))
    }
}
