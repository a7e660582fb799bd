// Writing out a whole filter with a book.
ghost use Rattle.std.specs.Prelude.{◌≡◌, ◌≤◌, length, take, IfOk};
ghost use Rattle.model.specs.Faults.{answered};
ghost use Rattle.model.specs.Reading.{read_filter};
ghost use Rattle.model.specs.Walk.{walk};
ghost use Rattle.model.specs.Writing.{output_after};
ghost use Rattle.filter.specs.Summaries.{option_summary};
ghost use Rattle.filter.specs.WriteOut.{lengths_checked, written_length, length_out};

use crate::form::write_each;
use crate::options::Options;
use crate::part::Filter;
use crate::reading::tally;
use model::fault::{Cause, Fault, Layer};
use netlink::nla::LONGEST_PAYLOAD;
use tc::book::Book;

/// Looks at every option in turn: its written payload must fit its length field.
fn check_lengths<B: Book>(book: &B, filter: &Filter<'_>) -> Result<(), Fault>
    ensures { answered result ≡ lengths_checked (option_summary (B.Book.meaning book.now)) (walk 0 filter.now.bytes.now) }
{
    let options = Options { book };
    for part in filter.row() {
        let part = part?;
        if options.payload_len(&part)? > LONGEST_PAYLOAD {
            return Err(Fault::new(Cause::PayloadTooLong, part.nla.place, Layer::FilterOption));
        }
    }
    Ok(())
}

/// How many bytes a filter that is not too long is written out as, or why it is not.
fn length_of<B: Book>(book: &B, filter: &Filter<'_>) -> Result<usize, Fault>
    ensures { answered result ≡ written_length (B.Book.meaning book.now) filter.now.bytes.now }
{
    let tally = tally(book, filter)?;
    check_lengths(book, filter)?;
    Ok(tally.length)
}

/// How many bytes a filter is written out as, or why it is not: its first fault, or an option of actions that outgrows its length field.
pub fn written_len<B: Book>(book: &B, filter: &[u8]) -> Result<usize, Fault>
    ensures { answered result ≡ written_length (B.Book.meaning book.now) filter.now }
{
    length_of(book, &Filter::new(filter)?)
}

/// Writes a filter out with a book, and answers how many bytes that took. Beyond them the output stays as it was, and on a refusal all of it.
/// What is written out within 65,531 bytes reads as the filter did.
pub fn write_out<B: Book>(book: &B, filter: &[u8], output: &mut [u8]) -> Result<usize, Fault>
    ensures value { answered result ≡ length_out (B.Book.meaning book.now) (length output.old) filter.now }
    ensures after { output.new ≡ output_after (B.Book.meaning book.now) output.old filter.now }
    ensures trip { IfOk result (λ n. n ≤ 65531 → read_filter (B.Book.meaning book.now) (take n output.new) ≡ read_filter (B.Book.meaning book.now) filter.now) }
{
    let filter = Filter::new(filter)?;
    let size = length_of(book, &filter)?;
    if output.len() < size {
        return Err(Fault::new(Cause::NoRoom, 0, Layer::FilterOption));
    }
    write_each(&Options { book }, filter.row(), output)
}
