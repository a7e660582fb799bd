// The shipped book: it knows the options of three kinds of action, and is plain elsewhere.
ghost use Rattle.std.specs.Prelude.{◌≡◌};
ghost use Rattle.model.specs.Book.{judgement, writes, memory_after_writing};
ghost use Rattle.model.specs.Shipped.{shipped};
ghost use Rattle.payload.specs.Errors.{decoded};
ghost use Rattle.tc.specs.Judgements.{judged};
ghost use Rattle.tc.specs.Families.{family_of, told};
ghost use Rattle.model.proofs.Books.{shipped_laws};

use crate::book::{Book, Judged, Refusal};
use crate::plain::PlainBook;
use netlink::buffer::NlaBuffer;
use netlink::nla::Nla;
use netlink::traits::Parseable;
use payload::error::DecodeError;
use tc_options::mirror::TcActionMirrorOption;
use tc_options::nat::TcActionNatOption;
use tc_options::tunnel_key::TcActionTunnelKeyOption;
use tc_options::{mirror, nat, tunnel_key};

/// The kinds of action whose options the shipped book knows.
#[derive(Clone, Copy)]
enum Family {
    Mirror,
    Nat,
    TunnelKey,
    Other,
}

/// The family that a kind text names.
fn named(kind: &[u8]) -> Family
    ensures { result ≡ family_of kind.now }
{
    if kind == mirror::KIND {
        Family::Mirror
    } else if kind == nat::KIND {
        Family::Nat
    } else if kind == tunnel_key::KIND {
        Family::TunnelKey
    } else {
        Family::Other
    }
}

/// The option that a book is asked about. A book knows no place.
fn asked(word: u16, payload: &[u8]) -> NlaBuffer<'_>
    ensures { result ≡ record { place = 0; word = word; value = payload.entry } }
{
    NlaBuffer {
        place: 0,
        word,
        value: payload,
    }
}

/// What is written of an option that was read; one that can't be read is refused.
fn verdict<O: Nla + Drop>(parsed: Result<O, DecodeError>) -> Result<Judged, Refusal>
    ensures { judged result ≡ judgement (told O.Nla.word O.Nla.payload (decoded parsed)) }
{
    let option = parsed?;
    Ok(Judged {
        word: option.kind(),
        length: option.value_len(),
    })
}

/// Writes an option that was read; one that was not is not written.
fn write_option<O: Nla + Drop>(parsed: Result<O, DecodeError>, memory: &mut [u8]) -> bool
    ensures value { result ≡ writes (told O.Nla.word O.Nla.payload (decoded parsed)) memory.old }
    ensures after { memory.new ≡ memory_after_writing (told O.Nla.word O.Nla.payload (decoded parsed)) memory.old }
{
    match parsed {
        Ok(option) => option.emit_value(memory),
        Err(_) => false,
    }
}

/// The book that comes with this library. It compares the kind with `mirred`, `nat` and `tunnel_key`, judges their options by their types, and is plain under every other kind.
#[derive(Clone, Copy)]
pub struct ShippedBook;

// Each parser is called here, and not through `TcActionOption::parse`: an option put together in an enum within an enum costs up to half as
// much again to judge and to write.
impl Book for ShippedBook {
    ghost meaning = { λ _. shipped };

    ghost lawful = { λ b. shipped_laws };

    fn judge(&self, kind: &[u8], word: u16, payload: &[u8]) -> Result<Judged, Refusal> {
        let option = asked(word, payload);
        match named(kind) {
            Family::Mirror => verdict(TcActionMirrorOption::parse(&option)),
            Family::Nat => verdict(TcActionNatOption::parse(&option)),
            Family::TunnelKey => verdict(TcActionTunnelKeyOption::parse(&option)),
            Family::Other => PlainBook.judge(kind, word, payload),
        }
    }

    fn write(&self, kind: &[u8], word: u16, payload: &[u8], memory: &mut [u8]) -> bool {
        let option = asked(word, payload);
        match named(kind) {
            Family::Mirror => write_option(TcActionMirrorOption::parse(&option), memory),
            Family::Nat => write_option(TcActionNatOption::parse(&option), memory),
            Family::TunnelKey => write_option(TcActionTunnelKeyOption::parse(&option), memory),
            Family::Other => PlainBook.write(kind, word, payload, memory),
        }
    }
}
