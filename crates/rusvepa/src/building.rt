// `build`: the calls that build the written form of a file.
use crate::files::Trouble;
use crate::tool::Tool;
use script::calls::{Script, Unscripted};
use std::alloc::AllocError;
use std::io;
use std::io::Write;

impl<'r, W: Write> Tool<'r, W> {
    /// Writes the calls that build a written form, or says why there are none.
    fn write_calls(&mut self, path: &str, written: &[u8]) -> io::Result<()> {
        match Script::of(self.rt.alloc(), written) {
            Ok(script) => write!(self.out, "{script}"),
            Err(Unscripted::Refused(fault)) => self.complain(path, &Trouble::Refused(fault)),
            Err(Unscripted::NoMemory) => Err(AllocError.into()),
        }
    }

    /// Writes the calls that build the written form of a file, or says why there are none.
    pub(crate) fn build_file(&mut self, path: &str) -> io::Result<()> {
        match self.form_of(path) {
            Ok(written) => self.write_calls(path, written.as_slice()),
            Err(trouble) => self.complain(path, &trouble),
        }
    }
}
