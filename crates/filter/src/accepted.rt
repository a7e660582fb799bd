// An option of an action that its book accepts, written by the one writer of attributes.
ghost use Rattle.std.specs.Prelude.{◌≡◌};
ghost use Rattle.model.specs.Book.{judgement, written_as};

use crate::action_options::ActionOptions;
use netlink::buffer::NlaBuffer;
use netlink::nla::Nla;
use tc::book::{Book, Judged};

/// An option that the book accepts, with what the book judged of it.
#[derive(Drop)]
pub(crate) struct Accepted<'a, 'k, 'o, B: Book> {
    pub(crate) options: ActionOptions<'a, 'k, B>,
    pub(crate) nla: NlaBuffer<'o>,
    pub(crate) judged: Judged,
    ghost told: { written_as judged.word judged.length ≡ judgement (B.Book.meaning options.book.now options.kind.now nla.word nla.value.now) },
}

impl<'a, 'k, 'o, B: Book> Nla for Accepted<'a, 'k, 'o, B> {
    ghost use Rattle.filter.specs.Writes.{payload_of};

    ghost word = { λ a. a.judged.word };

    ghost payload = { λ a. payload_of (B.Book.meaning a.options.book.now a.options.kind.now a.nla.word a.nla.value.now) };

    fn value_len(&self) -> usize {
        self.judged.length
    }

    fn kind(&self) -> u16 {
        self.judged.word
    }

    fn emit_value(&self, buffer: &mut [u8]) -> bool {
        self.options
            .book
            .write(self.options.kind, self.nla.word, self.nla.value, buffer)
    }
}
