// An attribute, as it stands in a filter.

/// An attribute as it stands in a filter: where its head is, its type word, and its payload.
#[derive(Clone, Copy)]
pub struct NlaBuffer<'a> {
    /// The place of the head, in bytes from the start of the filter.
    pub place: usize,
    /// The type with its two flags.
    pub word: u16,
    /// The payload.
    pub value: &'a [u8],
}
