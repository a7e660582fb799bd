// The reading of an entry, its written form, and whether two are one.
use filter::sameness::same;
use filter::writing::{write_out, written_len};
use model::fault::Fault;
use shown::bytes::Bytes;
use std::alloc::{AllocError, Global};
use std::io;
use tc::shipped::ShippedBook;
use thiserror::Error;
use tree::whole::Reading;
use wording::fault::Sentence;

/// Why there is no written form.
#[derive(Debug, Drop, Error)]
pub(crate) enum Unwritten {
    #[error("Not written out: no memory.")]
    NoMemory(#[from(alloc)] AllocError),
    #[error("Not written out.")]
    Fault(#[from] Fault),
}

/// An entry's written form, with the shipped book.
pub(crate) fn written(heap: Global, filter: &[u8]) -> Result<Vec<u8>, Unwritten> {
    let mut output = vec![in heap; 0u8; written_len(&ShippedBook, filter)?]?;
    write_out(&ShippedBook, filter, output.as_mut_slice())?;
    Ok(output)
}

/// Shows what an entry reads as, and its written form.
pub(crate) fn show_canonical(rt: &HostRuntime, title: &str, filter: &[u8]) -> io::Result<()> {
    println!(rt; "{title}, read with the shipped book:")?;
    match Reading::of(filter) {
        Ok(reading) => print!(rt; "{reading}")?,
        Err(fault) => {
            let sentence = Sentence(fault);
            println!(rt; "Refused: {sentence}")?;
        }
    }
    match written(rt.alloc(), filter) {
        Ok(output) => {
            let length = output.len();
            let bytes = Bytes(output.as_slice());
            println!(rt; "Written out, {length} bytes:")?;
            println!(rt; "{bytes}")?;
        }
        Err(unwritten) => println!(rt; "{unwritten}")?,
    }
    println!(rt; "")
}

/// Says whether two entries are one.
pub(crate) fn compare_canonical(rt: &HostRuntime, first: &[u8], second: &[u8]) -> io::Result<()> {
    let mut ours = vec![in rt.alloc(); 0u8; 65536]?;
    let mut theirs = vec![in rt.alloc(); 0u8; 65536]?;
    match same(
        &ShippedBook,
        first,
        second,
        ours.as_mut_slice(),
        theirs.as_mut_slice(),
    ) {
        Ok(true) => println!(rt;
            "The two are one entry: their readings are equal, and their written forms are the same bytes."
        )?,
        Ok(false) => println!(rt; "The two are two entries: their readings differ.")?,
        Err(_) => println!(rt; "One of the two is not written out.")?,
    }
    println!(rt; "")
}
