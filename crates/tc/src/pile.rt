// A pile of books, for the tests: a book that holds two others by value, and a book that refuses everything for its top.
ghost use Rattle.std.specs.Prelude.{codes};
ghost use Rattle.tc.specs.Piles.{closed, piled};
ghost use Rattle.tc.specs.PilesLemmas.{piled_laws, closed_laws};

use crate::book::{Book, Judged, Refusal};
use crate::plain::PlainBook;
use std::test::Fail;

/// A book over another: it judges the options of the kind `gact` by the one, and passes every other kind down to the one below.
#[derive(Drop)]
struct Over<F, B> {
    top: F,
    below: B,
}

impl<F: Book, B: Book> Book for Over<F, B> {
    ghost meaning = { λ s. piled (codes "gact") (F.Book.meaning s.top) (B.Book.meaning s.below) };

    ghost lawful = { λ s. piled_laws (codes "gact") (F.Book.meaning s.top) (B.Book.meaning s.below) (F.Book.lawful s.top) (B.Book.lawful s.below) };

    fn judge(&self, kind: &[u8], word: u16, payload: &[u8]) -> Result<Judged, Refusal> {
        if kind == b"gact".as_slice() {
            self.top.judge(kind, word, payload)
        } else {
            self.below.judge(kind, word, payload)
        }
    }

    fn write(&self, kind: &[u8], word: u16, payload: &[u8], memory: &mut [u8]) -> bool {
        if kind == b"gact".as_slice() {
            self.top.write(kind, word, payload, memory)
        } else {
            self.below.write(kind, word, payload, memory)
        }
    }
}

/// A book that refuses every option, with the number 7.
#[derive(Clone, Copy)]
struct ClosedBook;

impl Book for ClosedBook {
    ghost meaning = { λ _. closed };

    ghost lawful = { λ _. closed_laws };

    fn judge(&self, kind: &[u8], word: u16, payload: &[u8]) -> Result<Judged, Refusal> {
        Err(Refusal { number: 7, need: 0 })
    }

    fn write(&self, kind: &[u8], word: u16, payload: &[u8], memory: &mut [u8]) -> bool {
        false
    }
}

#[test]
fn one_kind_is_judged_at_the_top(rt: HostRuntime) -> Result<(), Fail> {
    let pile = Over {
        top: ClosedBook,
        below: PlainBook,
    };
    let mut memory = [1, 2];
    assert!(rt; !pile.write(b"gact", 0x8001, b"ab", &mut memory));
    assert_eq!(rt; memory, [1, 2]);
    match pile.judge(b"gact", 0x8001, b"ab") {
        Ok(_) => Err(Fail::new("accepted")),
        Err(refusal) => {
            assert_eq!(rt; refusal.number, 7);
            Ok(())
        },
    }
}

#[test]
fn other_kinds_go_down(rt: HostRuntime) -> Result<(), Fail> {
    let pile = Over {
        top: ClosedBook,
        below: Over {
            top: ClosedBook,
            below: PlainBook,
        },
    };
    let mut memory = [1, 2];
    assert!(rt; pile.write(b"nat", 0x8001, b"ab", &mut memory));
    assert_eq!(rt; memory, *b"ab");
    match pile.judge(b"nat", 0x8001, b"ab") {
        Ok(judged) => {
            assert_eq!(rt; judged.word, 0x8001);
            assert_eq!(rt; judged.length, 2);
            Ok(())
        }
        Err(_) => Err(Fail::new("refused")),
    }
}
