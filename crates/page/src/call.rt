// The calls of a page.

/// A call of a page.
#[derive(Clone, Copy)]
pub enum Call<'a> {
    /// Writes one attribute: its word and its payload.
    Put(u16, &'a [u8]),
    /// Begins a nest of a type.
    Open(u16),
    /// Ends the innermost nest and keeps it.
    Close,
    /// Strike ends the innermost nest and removes it.
    Strike,
}
