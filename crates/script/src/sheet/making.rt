// The calls on a page with its memory.
ghost use Rattle.std.specs.Prelude.{◌≡◌, length, vec_items, IfOk};
ghost use Rattle.model.specs.Faults.{answered};
ghost use Rattle.model.specs.Page.{state, new_page};
ghost use Rattle.model.specs.Runs.{page_bytes};
ghost use Rattle.model.specs.Shipped.{shipped};
ghost use Rattle.page.specs.Calls.{meant};
ghost use Rattle.page.specs.Pages.{as_page};
ghost use Rattle.page.specs.Steps.{outcome, stepped, turned};
ghost use Rattle.script.specs.Sheets.{lent_turn, as_sheet};

use super::Sheet;
use model::fault::Fault;
use page::call::Call;
use page::page::Page;
use tc::shipped::ShippedBook;

impl Sheet {
    /// A new page for this memory.
    pub fn new(memory: Vec<u8>) -> Result<Sheet, Fault>
        ensures page { as_sheet result ≡ new_page (length (vec_items memory)) }
        ensures memory { IfOk result (λ s. vec_items s.memory ≡ vec_items memory) }
    {
        let page = Page::new(memory.as_slice())?;
        Ok(Sheet { page, memory })
    }

    /// Makes a call with the page's memory. A refused call changes nothing.
    pub fn make(&mut self, call: Call<'_>) -> Result<(), Fault>
        ensures { outcome (answered result) (state (as_page self.new.page) (vec_items self.new.memory)) ≡ stepped shipped (state (as_page self.old.page) (vec_items self.old.memory)) (meant call.entry) }
    {
        self.page
            .perform(&ShippedBook, self.memory.as_mut_slice(), call)
    }

    /// Makes a call with other memory in the place of the page's: it is refused, and changes nothing. Memory as long as the page's is no other.
    pub fn make_with(&mut self, other: &mut [u8], call: Call<'_>) -> Result<(), Fault>
        ensures { outcome (answered result) (state (as_page self.new.page) (vec_items self.new.memory)) ≡ turned shipped (state (as_page self.old.page) (vec_items self.old.memory)) (lent_turn (as_page self.old.page).size other.old (meant call.entry)) }
    {
        if other.len() == self.memory.len() {
            return self.make(call);
        }
        self.page.perform(&ShippedBook, other, call)
    }

    /// The page's bytes.
    pub fn bytes(&self) -> &[u8]
        ensures { result.now ≡ page_bytes (state (as_page self.now.page) (vec_items self.now.memory)) }
    {
        &self.memory.as_slice()[..self.page.used()]
    }
}
