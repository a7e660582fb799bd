// A cursor over the options of an action, as a book judges them.
ghost use Rattle.std.specs.Prelude.{◌≡◌};
ghost use Rattle.model.specs.Walk.{walk};
ghost use Rattle.model.specs.Book.{writes, memory_after_writing};
ghost use Rattle.model.specs.declared.fault.Layer.TheVariants.{ActionOption};
ghost use Rattle.netlink.specs.Walking.{ahead};
ghost use Rattle.tc_filter.specs.Kinds.{place_inside};
ghost use Rattle.cursors.specs.Heard.{judged_heard, judged_as, found_reads};
ghost use Rattle.cursors.specs.Moves.{JudgedStep, left_of};
ghost use Rattle.std.specs.Iterator.{at_most};

use model::fault::{Fault, Layer};
use netlink::buffer::NlaBuffer;
use netlink::walker::NlasIterator;
use payload::error::ErrorContext;
use tc::book::{Book, Judged};

/// An option of an action that its book accepts: as it stands, and the word and payload length that are written of it.
#[derive(Clone, Copy)]
pub struct JudgedOption<'a> {
    pub nla: NlaBuffer<'a>,
    pub judged: Judged,
}

// It is no `Parts`: a part is read from its attribute alone, and this one by a book and a kind, which the cursor holds.
/// A cursor over the options of an action: each as its book judges it under the action's kind, or its fault.
#[derive_where(Clone, Copy)]
pub struct ActionOptions<'a, 'b, 'k, B> {
    walk: NlasIterator<'a>,
    book: &'b B,
    kind: &'k [u8],
}

/// What the book says of an attribute that a walk found.
fn judged_of<'a, B: Book>(
    book: &B,
    kind: &[u8],
    found: Result<NlaBuffer<'a>, Fault>,
) -> Result<JudgedOption<'a>, Fault>
    ensures { judged_heard result ≡ found_reads (judged_as (B.Book.meaning book.now) kind.now) found.entry }
{
    let nla = found?;
    let judged = book
        .judge(kind, nla.word, nla.value)
        .context(nla.place, Layer::ActionOption)?;
    Ok(JudgedOption { nla, judged })
}

impl<'a, 'b, 'k, B: Book> ActionOptions<'a, 'b, 'k, B> {
    /// At the first option of an action of this kind.
    pub fn new(book: &'b B, kind: &'k [u8], options: &NlaBuffer<'a>) -> ActionOptions<'a, 'b, 'k, B>
        ensures walks { ahead result.walk ≡ walk (place_inside options.now) options.now.value.now }
        ensures layer { result.walk.layer ≡ ActionOption }
        ensures kind { result.kind ≡ kind.entry }
        ensures book { result.book ≡ book.entry }
    {
        ActionOptions {
            walk: options.nested(Layer::ActionOption),
            book,
            kind,
        }
    }

    // A `bool`, since a book's second call answers yes or no.
    /// Writes the payload that is written of an option into memory of just its length. Memory of another length stays as it was, with a `false`.
    pub fn write(&self, option: &JudgedOption<'_>, memory: &mut [u8]) -> bool
        ensures value { result ≡ writes (B.Book.meaning self.now.book.now self.now.kind.now option.now.nla.word option.now.nla.value.now) memory.old }
        ensures after { memory.new ≡ memory_after_writing (B.Book.meaning self.now.book.now self.now.kind.now option.now.nla.word option.now.nla.value.now) memory.old }
    {
        self.book
            .write(self.kind, option.nla.word, option.nla.value, memory)
    }
}

impl<'a, 'b, 'k, B: Book> Iterator for ActionOptions<'a, 'b, 'k, B> {
    type Item = Result<JudgedOption<'a>, Fault>;

    ghost can_next = { λ _. Unit {0} };

    ghost next_gives = { λ s r t. JudgedStep (B.Book.meaning s.book.now) s.kind.now s.walk r t.walk };

    ghost remaining = { λ s. at_most (left_of s.walk) };

    fn next(&mut self) -> Option<Result<JudgedOption<'a>, Fault>> {
        self.walk
            .next()
            .map(|found| judged_of(self.book, self.kind, found))
    }
}
