// Heads of nests: written when a nest is opened, sealed with its length when it is closed, cut off when it is struck.
ghost use Rattle.std.specs.Prelude.{◌≡◌, ◌+◌, [], ◌∷◌, length};
ghost use Rattle.model.specs.Faults.{answered, numbers, cause_number};
ghost use Rattle.model.specs.Page.{state, own_fault};
ghost use Rattle.page.specs.Levels.{heads_of, reach, inmost, outer};
ghost use Rattle.page.specs.Pages.{as_page};
ghost use Rattle.page.specs.Steps.{outcome, nested, sealed, struck};

use super::Page;
use crate::level::Level;
use model::fault::{Cause, Fault};
use netlink::nla::head;
use netlink::overwrite::overwrite;

impl Page {
    /// The page's own refusal of a call: at the used length, in the layer of its level.
    pub(super) fn fault(&self, cause: Cause) -> Fault
        ensures { numbers result ≡ own_fault (as_page self.now) (cause_number cause) 0 }
    {
        Fault::new(cause, self.used, self.level.layer())
    }

    // That the memory is the page's stands on `nest`, `seal` and `append`: memory is lent to each call, and a ghost field beside a `&mut` is not covered by the checker.
    /// Writes a head with length 0 behind what is used.
    pub(super) fn nest(&mut self, memory: &mut [u8], word: u16, inner: Level) -> Result<(), Fault>
        requires size { length memory.old ≡ self.old.size }
        requires inner { (reach inner ≡ self.old.used + 4) × ((inmost inner ≡ self.old.used) × ((outer inner ≡ self.old.level) × (heads_of inner ≡ self.old.used ∷ heads_of self.old.level))) }
        ensures { outcome (answered result) (state (as_page self.new) memory.new) ≡ nested (state (as_page self.old) memory.old) word }
    {
        if self.size - self.used < 4 {
            return Err(self.fault(Cause::NoRoom));
        }
        overwrite(memory, self.used, &head(0, word));
        self.level = inner;
        self.used += 4;
        Ok(())
    }

    // `seal` and `cut` answer as every call does, though nothing is refused here: each is the whole arm of a call.
    /// Writes the length of the nest whose head is at `head`, the innermost.
    pub(super) fn seal(&mut self, memory: &mut [u8], head: usize, rest: Level) -> Result<(), Fault>
        requires size { length memory.old ≡ self.old.size }
        requires rest { (head ≡ inmost self.old.level) × ((head + 4 ≡ reach self.old.level) × (rest ≡ outer self.old.level)) }
        ensures { outcome (answered result) (state (as_page self.new) memory.new) ≡ sealed (state (as_page self.old) memory.old) head }
    {
        let length = ((self.used - head) as u16).to_le_bytes();
        overwrite(memory, head, &length);
        self.level = rest;
        Ok(())
    }

    /// Takes back the innermost nest, whose head is at `head`.
    pub(super) fn cut(&mut self, head: usize, rest: Level) -> Result<(), Fault>
        requires { (head ≡ inmost self.old.level) × ((head + 4 ≡ reach self.old.level) × (rest ≡ outer self.old.level)) }
        ensures { outcome (answered result) (state (as_page self.new) []) ≡ struck (state (as_page self.old) []) head }
    {
        self.used = head;
        self.level = rest;
        Ok(())
    }
}
