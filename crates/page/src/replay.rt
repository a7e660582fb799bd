// Whole runs: every turn after the other on a page newly made.
ghost use Rattle.std.specs.Prelude.{◌≡◌, length, IfOk};
ghost use Rattle.model.specs.Faults.{answered};
ghost use Rattle.model.specs.Card.{card_of};
ghost use Rattle.model.specs.Laws.{PageAgrees};
ghost use Rattle.model.specs.Runs.{start};
ghost use Rattle.model.specs.Page.{state, InRange};
ghost use Rattle.page.specs.Calls.{meant};
ghost use Rattle.page.specs.Pages.{as_page};
ghost use Rattle.page.specs.Steps.{outcome, stepped, turned};
ghost use Rattle.page.specs.Turns.{Fair, turn_meant, turns_meant, replayed, replay_of, Reorders};

use crate::call::Call;
use crate::page::Page;
use crate::turn::Turn;
use model::fault::Fault;
use tc::book::Book;

// Not `perform` itself: the checker gives the range of an argument and not of a case's field, so that a call is in range is learned from the methods.
/// Makes a call by the page's method for it.
fn make<B: Book>(page: &mut Page, book: &B, memory: &mut [u8], call: Call<'_>) -> Result<(), Fault>
    ensures outcome { outcome (answered result) (state (as_page page.new) memory.new) ≡ stepped (B.Book.meaning book.now) (state (as_page page.old) memory.old) (meant call.entry) }
    ensures fair { InRange (meant call.entry) }
{
    match call {
        Call::Put(word, value) => page.put(book, memory, word, value),
        Call::Open(kind) => page.open(book, memory, kind),
        Call::Close => page.close(book, memory),
        Call::Strike => page.strike(book, memory),
    }
}

/// Takes one turn.
fn take_turn<B: Book>(
    page: &mut Page,
    book: &B,
    memory: &mut [u8],
    turn: Turn<'_>,
) -> Result<(), Fault>
    ensures outcome { outcome (answered result) (state (as_page page.new) memory.new) ≡ turned (B.Book.meaning book.now) (state (as_page page.old) memory.old) (turn_meant (as_page page.old).size turn.entry) }
    ensures fair { Fair (as_page page.old).size (turn_meant (as_page page.old).size turn.entry) }
{
    match turn {
        Turn::Own(call) => make(page, book, memory, call),
        Turn::Other(other, call) => {
            page.lent(other.len())?;
            make(page, book, memory, call)
        }
    }
}

/// Replays a run on a page newly made, whatever its memory holds, and gives the page that it leaves. A refused turn leaves page and memory as they were, and the run goes on.
///
/// After every run the page agrees with the run's card, for every lawful book; and with no nest open the attributes of one list can be put into any other order.
pub fn replay<B: Book>(book: &B, memory: &mut [u8], turns: &[Turn<'_>]) -> Result<Page, Fault>
    ensures value { replayed result memory.new ≡ replay_of (B.Book.meaning book.now) memory.old (turns_meant (length memory.old) turns.now) }
    ensures agrees { IfOk result (λ p. PageAgrees (B.Book.meaning book.now) (state (as_page p) memory.new) (card_of (B.Book.meaning book.now) (start memory.old) (turns_meant (length memory.old) turns.now))) }
    ensures free { IfOk result (λ p. Reorders (B.Book.meaning book.now) (state (as_page p) memory.new) (card_of (B.Book.meaning book.now) (start memory.old) (turns_meant (length memory.old) turns.now))) }
{
    let mut page = Page::new(memory)?;
    for turn in turns {
        let _ = take_turn(&mut page, book, memory, *turn);
    }
    Ok(page)
}
