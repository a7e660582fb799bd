// The plain book: it accepts every option as it stands.
ghost use Rattle.model.specs.Book.{plain};
ghost use Rattle.model.proofs.Books.{plain_laws};

use crate::book::{Book, Judged, Refusal};
use netlink::overwrite::fill;

/// The book that accepts every option as a default attribute: its word with the flags, and its payload. It refuses nothing.
#[derive(Clone, Copy)]
pub struct PlainBook;

impl Book for PlainBook {
    ghost meaning = { λ _. plain };

    ghost lawful = { λ b. plain_laws };

    fn judge(&self, kind: &[u8], word: u16, payload: &[u8]) -> Result<Judged, Refusal> {
        Ok(Judged {
            word,
            length: payload.len(),
        })
    }

    fn write(&self, kind: &[u8], word: u16, payload: &[u8], memory: &mut [u8]) -> bool {
        fill(memory, payload)
    }
}
