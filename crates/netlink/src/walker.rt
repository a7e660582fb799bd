// A walk over a part of a filter.
ghost use Rattle.std.specs.Prelude.{◌≤◌, length};

use model::fault::Layer;

/// A walk over the attributes of one part of a filter: what is left of the part, where the part ends, and the layer of what is found.
#[derive(Clone, Copy)]
pub struct NlasIterator<'a> {
    /// What is left to walk.
    rest: &'a [u8],
    // No length beside `rest`, but the place at which it ends: the place of what is left follows from both.
    /// The place behind the part's last byte, in bytes from the start of the filter.
    end: usize,
    /// The layer of the attributes that are found.
    layer: Layer,
    ghost inside: { length rest.now ≤ end },
}

pub mod walking;
