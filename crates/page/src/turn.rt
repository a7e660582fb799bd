// A turn of a run: a call, and the memory that it is handed.
use crate::call::Call;

/// A run is a list of turns on one page from its making.
#[derive(Clone, Copy)]
pub enum Turn<'a> {
    /// A call with the page's memory.
    Own(Call<'a>),
    /// A call with this memory in its place. Where it is as long as the page's memory, the call gets the page's.
    Other(&'a [u8], Call<'a>),
}
