// The calls of a page, one by one.
ghost use Rattle.std.specs.Prelude.{◌≡◌, ◌≤◌, length, IfOk};
ghost use Rattle.model.specs.Faults.{answered};
ghost use Rattle.model.specs.Page.{InRange, state, level, new_page, put, open_nest, close, strike};
ghost use Rattle.model.specs.Runs.{start};
ghost use Rattle.page.specs.Pages.{as_page, as_made};
ghost use Rattle.page.specs.Reaching.{ReachesEveryFilter};
ghost use Rattle.page.specs.Steps.{outcome, stepped};

use super::Page;
use crate::call::Call;
use crate::level::Level;
use model::fault::{Cause, Fault, Layer};
use netlink::nla::LONGEST_PAYLOAD;
use tc::book::Book;

impl Page {
    /// A page of which nothing is used.
    fn blank(memory: &[u8]) -> Page
        requires { length memory.now ≤ 65531 }
        ensures { state (as_page result) memory.now ≡ start memory.now }
    {
        Page {
            size: memory.len(),
            used: 0,
            level: Level::Root,
        }
    }

    /// A new page for this memory: nothing is used, and no nest is open. Memory of more than 65,531 bytes is refused by cause 1.
    /// By some run from here every filter that reads is reached, if its written form has just the memory's length.
    pub fn new(memory: &[u8]) -> Result<Page, Fault>
        ensures value { as_made result ≡ new_page (length memory.now) }
        ensures reaches { IfOk result (λ p. ReachesEveryFilter (state (as_page p) memory.now)) }
    {
        if memory.len() > LONGEST_PAYLOAD {
            return Err(Fault::new(Cause::TooLong, 0, Layer::FilterOption));
        }
        Ok(Page::blank(memory))
    }

    /// Writes one attribute: its word as given, flags included, its payload, and zeros up to a multiple of 4. It must belong at the level of the page,
    /// and read by itself where filter options or an action's attributes are written.
    pub fn put<B: Book>(
        &mut self,
        book: &B,
        memory: &mut [u8],
        word: u16,
        value: &[u8],
    ) -> Result<(), Fault>
        ensures outcome { outcome (answered result) (state (as_page self.new) memory.new) ≡ stepped (B.Book.meaning book.now) (state (as_page self.old) memory.old) (put word value.now) }
        ensures fair { InRange (put word value.now) }
    {
        self.perform(book, memory, Call::Put(word, value))
    }

    /// Begins a nest of a type: its head is written, with length 0.
    pub fn open<B: Book>(&mut self, book: &B, memory: &mut [u8], kind: u16) -> Result<(), Fault>
        ensures outcome { outcome (answered result) (state (as_page self.new) memory.new) ≡ stepped (B.Book.meaning book.now) (state (as_page self.old) memory.old) (open_nest kind) }
        ensures fair { InRange (open_nest kind) }
    {
        self.perform(book, memory, Call::Open(kind))
    }

    // Each call has a method that names it; what it does is decided where it is performed.
    /// Ends the innermost nest and keeps it: its length is written. An action is read with the book first.
    pub fn close<B: Book>(&mut self, book: &B, memory: &mut [u8]) -> Result<(), Fault>
        ensures { outcome (answered result) (state (as_page self.new) memory.new) ≡ stepped (B.Book.meaning book.now) (state (as_page self.old) memory.old) close }
    {
        self.perform(book, memory, Call::Close)
    }

    /// Strikes the innermost nest: the used length returns to its head, and no byte is altered.
    pub fn strike<B: Book>(&mut self, book: &B, memory: &mut [u8]) -> Result<(), Fault>
        ensures { outcome (answered result) (state (as_page self.new) memory.new) ≡ stepped (B.Book.meaning book.now) (state (as_page self.old) memory.old) strike }
    {
        self.perform(book, memory, Call::Strike)
    }

    /// How many bytes of the memory are used: the page's bytes are those below.
    pub fn used(&self) -> usize
        ensures { result ≡ (as_page self.now).used }
    {
        self.used
    }

    /// How many nests are open.
    pub fn open_nests(&self) -> usize
        ensures { result ≡ level (as_page self.now) }
    {
        match self.level {
            Level::Root => 0,
            Level::Actions(_) => 1,
            Level::Action(_, _) => 2,
            Level::Options(_, _, _) => 3,
        }
    }
}
