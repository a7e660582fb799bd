// A page: what it knows of its memory.
ghost use Rattle.std.specs.Prelude.{◌≤◌};
ghost use Rattle.page.specs.Levels.{reach, inmost, outer};

use crate::level::Level;

/// A page is a filter in the making: the length that its memory had at the making, how many bytes of it are used, and the open nests.
/// Its memory is handed to each call; the page's bytes are those below the used length.
#[derive(Drop)]
pub struct Page {
    // Lengths of memory that the caller holds and lends to each call, with the book; so both stand beside the page in every call.
    size: usize,
    used: usize,
    level: Level,
    ghost within: { (used ≤ size) × (size ≤ 65531) },
    ghost inner: { reach level ≤ used },
    ghost middle: { reach (outer level) ≤ inmost level },
    ghost outmost: { reach (outer (outer level)) ≤ inmost (outer level) },
}

pub mod calls;
mod nests;
pub mod performing;
mod puts;
