// What a book is: it judges action options.
ghost use Rattle.std.specs.Prelude.{◌≡◌};
ghost use Rattle.model.specs.Book.{Meaning, BookLaws, judgement, writes, memory_after_writing};
ghost use Rattle.tc.specs.Judgements.{judged, refusal_of, refusal_placed};

use model::fault::{Cause, Fault, Layer};
use payload::error::{DecodeError, ErrorContext};

/// What is written of an accepted option: its word, and its payload's length.
#[derive(Clone, Copy)]
pub struct Judged {
    /// The type with its flags, as it is written.
    pub word: u16,
    /// The length of the payload that is written.
    pub length: usize,
}

/// Why a book refuses an option, in the book's own numbers.
#[derive(Clone, Copy)]
pub struct Refusal {
    /// The number of the refusal, from 1 to 255.
    pub number: u8,
    /// The book's figure to it, as the payload length that it wants.
    pub need: usize,
}

/// An option that can't be read is refused by the number of its cause, with the length wanted.
impl From<DecodeError> for Refusal {
    ghost from_gives = { λ error refusal. refusal ≡ refusal_of error };

    fn from(error: DecodeError) -> Refusal {
        Refusal {
            number: u8::from(error.cause),
            need: error.need,
        }
    }
}

/// A refusal is a fault where the option stands: cause 14, with the book's own number and figure. (For any `T` it would be an impl of another crate's trait for another crate's type.)
impl ErrorContext<Judged> for Result<Judged, Refusal> {
    ghost outcome = { refusal_placed };

    fn context(self, place: usize, layer: Layer) -> Result<Judged, Fault> {
        self.map_err(|refusal| Fault {
            cause: Cause::RefusedByBook,
            place,
            layer,
            need: refusal.need,
            number: refusal.number,
        })
    }
}

/// A book judges action options, the attributes in the options of an action. It is asked with the kind text of the action, without the
/// zero after it, the option's word and the option's payload. It answers the word and the payload that are written for this option, or a
/// refusal of two numbers.
///
/// It is asked by two calls: `judge` tells the word and how long the payload is, and `write` writes the payload into memory of just that
/// length. Asking alters nothing: a book that is asked the same again answers the same.
pub trait Book {
    /// What the book answers for a kind text, a word and a payload.
    ghost meaning: { Self → Meaning };

    /// The word that is written and its payload's length, or the refusal.
    fn judge(&self, kind: &[u8], word: u16, payload: &[u8]) -> Result<Judged, Refusal>
        ensures { judged result ≡ judgement (meaning self.now kind.now word payload.now) };

    // A `bool`, since a book's second call answers yes or no. Kind, word and payload are the question by which a book is defined.
    /// Writes the payload that is written of the option into memory of just its length, whole. Memory of another length, or a refused
    /// option, gets a `false`, and the memory stays as it was.
    fn write(&self, kind: &[u8], word: u16, payload: &[u8], memory: &mut [u8]) -> bool
        ensures value { result ≡ writes (meaning self.now kind.now word payload.now) memory.old }
        ensures after { memory.new ≡ memory_after_writing (meaning self.now kind.now word payload.now) memory.old };

    /// What is written is no longer than what was asked about, and asked about itself it is accepted and written as it is. It is a 16-bit
    /// word and bytes where the question is. A refusal's number is from 1 to 255.
    ghost lawful: { (b : Self) → BookLaws (meaning b) };
}
