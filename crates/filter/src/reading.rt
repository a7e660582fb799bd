// Reading a whole filter with a book.
ghost use Rattle.std.specs.Prelude.{◌≡◌};
ghost use Rattle.model.specs.Faults.{answered};
ghost use Rattle.filter.specs.Reads.{filter_tally, read_counts, counts_heard, action_reads_at};

use crate::actions::Actions;
use crate::form::{Form, read_each};
use crate::options::Options;
use crate::part::{Filter, Part};
use crate::tally::Tally;
use model::fault::{Cause, Fault, Layer};
use netlink::buffer::NlaBuffer;
use netlink::nla::LONGEST_PAYLOAD;
use tc::book::Book;

/// The most bytes that a filter may have: it is itself the payload of an attribute.
pub const LONGEST_FILTER: usize = LONGEST_PAYLOAD;

/// What a filter counts: its options, the actions in them, and the options of these actions.
#[derive(Clone, Copy)]
pub struct Counts {
    pub options: usize,
    pub actions: usize,
    pub action_options: usize,
}

impl From<Tally> for Counts {
    ghost from_gives = { λ t c. c ≡ record { options = t.items; actions = t.actions; action_options = t.action_options } };

    fn from(tally: Tally) -> Counts {
        Counts {
            options: tally.items,
            actions: tally.actions,
            action_options: tally.action_options,
        }
    }
}

/// Reads a filter, and answers its numbers or its first fault.
pub(crate) fn tally<B: Book>(book: &B, filter: &Filter<'_>) -> Result<Tally, Fault>
    ensures { answered result ≡ filter_tally (B.Book.meaning book.now) filter.now.bytes.now }
{
    read_each(&Options { book }, filter.row())
}

// Book and filter stand beside one another here and in writing out: a struct of the two would be made for one call and taken apart in it.
/// Reads a filter with a book, and answers its counts, or its first fault.
pub fn read<B: Book>(book: &B, filter: &[u8]) -> Result<Counts, Fault>
    ensures { counts_heard result ≡ read_counts (B.Book.meaning book.now) filter.now }
{
    Ok(Counts::from(tally(book, &Filter::new(filter)?)?))
}

/// Reads one action with a book: the one whose head stands at `place`, and which ends with the bytes. The length in its head is not looked at.
/// Refused are more bytes than a filter may have, and a place with fewer than 4 bytes for a head.
pub fn read_action<B: Book>(book: &B, bytes: &[u8], place: usize) -> Result<(), Fault>
    ensures { answered result ≡ action_reads_at (B.Book.meaning book.now) bytes.now place }
{
    let bytes = Filter::new(bytes)?.bytes;
    if bytes.len() < 4 || place > bytes.len() - 4 {
        return Err(Fault::new(Cause::HeadCutOff, place, Layer::Action));
    }
    let action = NlaBuffer {
        place,
        word: 0,
        value: &bytes[place + 4..],
    };
    let _ = Actions { book }.read(&Part { nla: action })?;
    Ok(())
}
