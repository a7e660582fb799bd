// How the attributes of one layer are put on a page, and the one loop over a row of them.
ghost use Rattle.std.specs.Prelude.{◌≡◌, ℕ, ◌+◌, ◌≤◌, List, length};
ghost use Rattle.model.specs.Page.{state};
ghost use Rattle.model.specs.Runs.{Turn, run};
ghost use Rattle.netlink.specs.Walking.{ahead};
ghost use Rattle.page.specs.Pages.{as_page};
ghost use Rattle.page_build.specs.Fillings.{row_turns};

use netlink::buffer::NlaBuffer;
use netlink::walker::NlasIterator;
use page::page::Page;
use tc::book::Book;

// Book, page and memory go together, one by one as a page's calls take them: a struct of the three would be taken apart for each call.
/// How the attributes of one layer are put on a page.
pub(crate) trait Filler {
    /// The turns for an attribute, by its place, word and payload.
    ghost turns: { Self → ℕ → ℕ → List ℕ → List Turn };

    /// Puts an attribute on the page, with all that is inside. What the calls answer is let go: after a refusal the others are still made.
    fn fill<B: Book>(&self, book: &B, page: &mut Page, memory: &mut [u8], nla: &NlaBuffer<'_>)
        requires { nla.now.place + (4 + length nla.now.value.now) ≤ 65531 }
        ensures { state (as_page page.new) memory.new ≡ run (B.Book.meaning book.now) (state (as_page page.old) memory.old) (turns self.now nla.now.place nla.now.word nla.now.value.now) };
}

/// Puts a row of attributes on the page, one after another.
pub(crate) fn fill_each<F: Filler, B: Book>(
    filler: &F,
    book: &B,
    page: &mut Page,
    memory: &mut [u8],
    walk: NlasIterator<'_>,
)
    requires { walk.end ≤ 65531 }
    ensures { state (as_page page.new) memory.new ≡ run (B.Book.meaning book.now) (state (as_page page.old) memory.old) (row_turns (F.Filler.turns filler.now) (ahead walk.entry)) }
{
    for nla in walk {
        let Ok(nla) = nla else {
            return;
        };
        filler.fill(book, page, memory, &nla);
    }
}
