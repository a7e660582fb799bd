// `read`: the reading of each file as a tree.
use crate::files::Trouble;
use crate::tool::Tool;
use std::io;
use std::io::Write;
use tree::whole::Reading;

impl<'r, W: Write> Tool<'r, W> {
    /// Writes the reading of the filter in a file, or says why there is none.
    fn read_file(&mut self, path: &str) -> io::Result<()> {
        let trouble = match self.load(path) {
            Ok(filter) => match Reading::of(filter.as_slice()) {
                Ok(reading) => return write!(self.out, "{reading}"),
                Err(fault) => Trouble::Refused(fault),
            },
            Err(trouble) => trouble,
        };
        self.out.flush()?;
        self.complain(path, &trouble)
    }

    /// Writes the reading of each file, with its name before it where there are several.
    pub(crate) fn read_files(&mut self, files: &[String]) -> io::Result<()> {
        for file in files {
            if files.len() > 1 {
                writeln!(self.out, "{file}:")?;
            }
            self.read_file(file.as_str())?;
        }
        Ok(())
    }
}
