// `same`: whether two files are one entry.
use crate::files::Trouble;
use crate::tool::Tool;
use filter::sameness::{Unwritten, Which, same};
use filter::writing::written_len;
use std::io;
use std::io::Write;
use tc::shipped::ShippedBook;

/// A filter, and room for its written form.
#[derive(Drop)]
struct Entry {
    filter: Vec<u8>,
    room: Vec<u8>,
}

impl<'r, W: Write> Tool<'r, W> {
    /// The entry in a file.
    fn entry_in(&self, path: &str) -> Result<Entry, Trouble> {
        let filter = self.load(path)?;
        let length = written_len(&ShippedBook, filter.as_slice())?;
        let room = vec![in self.rt.alloc(); 0u8; length]?;
        Ok(Entry { filter, room })
    }

    /// The entry in a file; where there is none, nothing, and why is said.
    fn entry_or_words(&mut self, path: &str) -> io::Result<Option<Entry>> {
        match self.entry_in(path) {
            Ok(entry) => Ok(Some(entry)),
            Err(trouble) => {
                self.complain(path, &trouble)?;
                Ok(None)
            }
        }
    }

    /// Says whether two files are one entry or two, or why that cannot be told.
    pub(crate) fn compare_files(&mut self, first: &str, second: &str) -> io::Result<()> {
        let ours = self.entry_or_words(first)?;
        let theirs = self.entry_or_words(second)?;
        let (Some(mut ours), Some(mut theirs)) = (ours, theirs) else {
            return Ok(());
        };
        match same(
            &ShippedBook,
            ours.filter.as_slice(),
            theirs.filter.as_slice(),
            ours.room.as_mut_slice(),
            theirs.room.as_mut_slice(),
        ) {
            Ok(true) => writeln!(
                self.out,
                "{first} and {second} are one entry: their written forms are the same."
            ),
            Ok(false) => writeln!(
                self.out,
                "{first} and {second} are two entries: their written forms differ."
            ),
            Err(Unwritten { which, fault }) => {
                let path = match which {
                    Which::First => first,
                    Which::Second => second,
                };
                self.complain(path, &Trouble::Refused(fault))
            }
        }
    }
}
