// Whether two filters are one.
ghost use Rattle.std.specs.Prelude.{◌≡◌, length, IfOk, Decides};
ghost use Rattle.model.specs.Reading.{read_filter};
ghost use Rattle.model.specs.Writing.{output_after};
ghost use Rattle.filter.specs.WriteOut.{compared, comparison, second_after};

use crate::writing::write_out;
use model::fault::Fault;
use tc::book::Book;

/// The first or the second of two filters.
#[derive(Clone, Copy)]
pub enum Which {
    First,
    Second,
}

/// Which of two filters is not written out, and why.
#[derive(Clone, Copy)]
pub struct Unwritten {
    pub which: Which,
    pub fault: Fault,
}

/// Whether two filters are one: written out, each into an output of its own, they are the same bytes exactly if their readings are equal.
/// A filter that is not written out is the answer; the second is looked at only if the first is written.
pub fn same<B: Book>(
    book: &B,
    first: &[u8],
    second: &[u8],
    first_output: &mut [u8],
    second_output: &mut [u8],
) -> Result<bool, Unwritten>
    ensures value { comparison result ≡ compared (B.Book.meaning book.now) (length first_output.old) (length second_output.old) first.now second.now }
    ensures decides { IfOk result (λ t. Decides t (read_filter (B.Book.meaning book.now) first.now ≡ read_filter (B.Book.meaning book.now) second.now)) }
    ensures first { first_output.new ≡ output_after (B.Book.meaning book.now) first_output.old first.now }
    ensures second { second_output.new ≡ second_after (B.Book.meaning book.now) (length first_output.old) first.now second_output.old second.now }
{
    let one = write_out(book, first, first_output).map_err(|fault| Unwritten {
        which: Which::First,
        fault,
    })?;
    let other = write_out(book, second, second_output).map_err(|fault| Unwritten {
        which: Which::Second,
        fault,
    })?;
    Ok(first_output[0..one] == second_output[0..other])
}
