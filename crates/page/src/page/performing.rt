// What a call does is decided by the page's level and the call together.
ghost use Rattle.std.specs.Prelude.{◌≡◌, ◌+◌, ◌≤◌, length, ◌==◌};
ghost use Rattle.model.specs.Faults.{answered};
ghost use Rattle.model.specs.Page.{state, own_fault, check, action_at};
ghost use Rattle.page.specs.Calls.{meant};
ghost use Rattle.page.specs.Pages.{as_page};
ghost use Rattle.page.specs.Steps.{outcome, stepped};

use super::Page;
use crate::call::Call;
use crate::level::Level;
use filter::reading::read_action;
use model::fault::{Cause, Fault};
use netlink::nla::{NLA_F_NESTED, TYPES};
use tc::book::Book;
use tc_filter::action_attribute::TCA_ACT_OPTIONS;
use tc_filter::cls_u32::TCA_U32_ACT;

impl Page {
    /// Whether memory of this length can be the page's: any other length is refused by cause 2.
    pub(crate) fn lent(&self, length: usize) -> Result<(), Fault>
        ensures { answered result ≡ check (length == self.now.size) (own_fault (as_page self.now) 2 0) }
    {
        if length != self.size {
            return Err(self.fault(Cause::OtherMemory));
        }
        Ok(())
    }

    // That the memory is the page's: see `nest`.
    /// Reads the action whose head is at `head` with the book, up to the used length.
    fn action_reads<B: Book>(&self, book: &B, memory: &[u8], head: usize) -> Result<(), Fault>
        requires { (length memory.now ≡ self.now.size) × (head + 4 ≤ self.now.used) }
        ensures { answered result ≡ action_at (B.Book.meaning book.now) memory.now (as_page self.now) head }
    {
        let used = self.used;
        read_action(book, &memory[..used], head)
    }

    /// Performs a call. A refused call leaves page and memory as they were.
    pub fn perform<B: Book>(
        &mut self,
        book: &B,
        memory: &mut [u8],
        call: Call<'_>,
    ) -> Result<(), Fault>
        ensures { outcome (answered result) (state (as_page self.new) memory.new) ≡ stepped (B.Book.meaning book.now) (state (as_page self.old) memory.old) (meant call.entry) }
    {
        self.lent(memory.len())?;
        let at = self.used;
        // One `match` of level and call: what a call does is decided by both together.
        match (self.level, call) {
            (_, Call::Open(kind)) if kind >= TYPES => Err(self.fault(Cause::TypeTooLarge)),
            (Level::Root, Call::Put(word, value)) if word % TYPES != TCA_U32_ACT => {
                self.reads_as_option(word, value)?;
                self.append(memory, word, value)
            }
            (Level::Action(_, _), Call::Put(word, value)) if word % TYPES != TCA_ACT_OPTIONS => {
                self.reads_as_attribute(word, value)?;
                self.append(memory, word, value)
            }
            (Level::Options(_, _, _), Call::Put(word, value)) => self.append(memory, word, value),
            (Level::Root, Call::Open(TCA_U32_ACT)) => {
                self.nest(memory, TCA_U32_ACT, Level::Actions(at))
            }
            (Level::Actions(a), Call::Open(tab)) => self.nest(memory, tab, Level::Action(a, at)),
            (Level::Action(a, b), Call::Open(TCA_ACT_OPTIONS)) => {
                self.nest(
                    memory,
                    NLA_F_NESTED + TCA_ACT_OPTIONS,
                    Level::Options(a, b, at),
                )
            }
            (Level::Actions(a), Call::Close) => self.seal(memory, a, Level::Root),
            (Level::Action(a, b), Call::Close) => {
                self.action_reads(book, memory, b)?;
                self.seal(memory, b, Level::Actions(a))
            }
            (Level::Options(a, b, c), Call::Close) => self.seal(memory, c, Level::Action(a, b)),
            (Level::Actions(a), Call::Strike) => self.cut(a, Level::Root),
            (Level::Action(a, b), Call::Strike) => self.cut(b, Level::Actions(a)),
            (Level::Options(a, b, c), Call::Strike) => self.cut(c, Level::Action(a, b)),
            (Level::Root, Call::Close | Call::Strike) => Err(self.fault(Cause::NoOpenNest)),
            _ => Err(self.fault(Cause::NotAtThisLevel)),
        }
    }
}
