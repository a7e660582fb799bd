// Building a page from a filter: the written form is put on it call by call.
ghost use Rattle.std.specs.Prelude.{◌≡◌, length, MatchResult};
ghost use Rattle.model.specs.Page.{state, only_fault};
ghost use Rattle.model.specs.Writing.{output_after};
ghost use Rattle.page.specs.Pages.{as_page, as_made};
ghost use Rattle.page_build.specs.Builds.{building, Built};

use crate::filler::fill_each;
use crate::fillers::FILTER_OPTIONS;
use filter::writing::write_out;
use model::fault::{Cause, Fault, Layer};
use netlink::walker::NlasIterator;
use page::page::Page;
use tc::book::Book;

/// Builds a page from a filter, by the page's own calls: each attribute is put as it is written, and each nest opened, filled and closed.
/// The filter is written out into the scratch memory first; where that is refused, or the page's memory is too short or too long, the memory stays as it was.
/// For every filter that reads, with room for its written form, the page then holds just that form, with no nest open.
pub fn build<B: Book>(
    book: &B,
    filter: &[u8],
    scratch: &mut [u8],
    memory: &mut [u8],
) -> Result<Page, Fault>
    ensures value { only_fault (as_made result) ≡ building (B.Book.meaning book.now) (length scratch.old) (length memory.old) filter.now }
    ensures page { MatchResult result (λ p. Built (B.Book.meaning book.now) filter.now memory.old (state (as_page p) memory.new)) (λ _. memory.new ≡ memory.old) }
    ensures scratch { scratch.new ≡ output_after (B.Book.meaning book.now) scratch.old filter.now }
{
    let size = write_out(book, filter, scratch)?;
    if memory.len() < size {
        return Err(Fault::new(Cause::NoRoom, 0, Layer::FilterOption));
    }
    let mut page = Page::new(memory)?;
    let walk = NlasIterator::new(&scratch[..size], Layer::FilterOption);
    fill_each(&FILTER_OPTIONS, book, &mut page, memory, walk);
    Ok(page)
}
