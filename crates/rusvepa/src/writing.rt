// `write`: the written form of a file.
use crate::files::Trouble;
use crate::tool::Tool;
use filter::writing::{write_out, written_len};
use shown::bytes::Bytes;
use std::io;
use std::io::Write;
use tc::shipped::ShippedBook;

/// Puts the written form of a filter in place of what `written` held.
pub(crate) fn write_form(filter: &[u8], written: &mut Vec<u8>) -> Result<(), Trouble> {
    let length = written_len(&ShippedBook, filter)?;
    written.resize(length, 0)?;
    write_out(&ShippedBook, filter, written.as_mut_slice())?;
    Ok(())
}

impl<'r, W: Write> Tool<'r, W> {
    /// The written form of the filter in a file.
    pub(crate) fn form_of(&self, path: &str) -> Result<Vec<u8>, Trouble> {
        let filter = self.load(path)?;
        let mut written = Vec::new(self.rt.alloc());
        write_form(filter.as_slice(), &mut written)?;
        Ok(written)
    }

    /// Writes the written form of a file, or says why there is none.
    pub(crate) fn write_file(&mut self, path: &str) -> io::Result<()> {
        match self.form_of(path) {
            Ok(written) => {
                let bytes = Bytes(written.as_slice());
                writeln!(self.out, "{bytes}")
            }
            Err(trouble) => self.complain(path, &trouble),
        }
    }
}
