// A page with its memory.
ghost use Rattle.std.specs.Prelude.{◌≡◌, length, vec_items};

use page::page::Page;

/// A page with its memory. Its actions are read with the shipped book.
#[derive(Drop)]
pub struct Sheet {
    page: Page,
    memory: Vec<u8>,
    ghost whole: { length (vec_items memory) ≡ page.size },
}

pub mod making;
