// The tool at work, and what its commands share.
use crate::files::Trouble;
use hexadecimal::decoding::decode;
use hexadecimal::plain_text::without_remarks;
use std::io::Write;
use std::process::ExitCode;
use std::{fs, io};

/// The tool at work.
#[derive(Drop)]
pub(crate) struct Tool<'r, W> {
    /// The system that it runs on.
    pub(crate) rt: &'r HostRuntime,
    /// Where it writes its answers.
    pub(crate) out: W,
    /// How it ends: well, unless it was called wrongly or something was refused.
    pub(crate) status: ExitCode,
}

impl<'r, W: Write> Tool<'r, W> {
    /// At its beginning, with nothing refused.
    pub(crate) fn new(rt: &'r HostRuntime, out: W) -> Tool<'r, W> {
        Tool {
            rt,
            out,
            status: ExitCode::SUCCESS,
        }
    }

    /// Says why a file gave no answer.
    pub(crate) fn complain(&mut self, path: &str, trouble: &Trouble) -> io::Result<()> {
        self.status = ExitCode::FAILURE;
        eprintln!(self.rt; "{path}: {trouble}")
    }

    /// The filter in a file: its bytes, or what its hexadecimal text means where its name ends in `.hex`.
    pub(crate) fn load(&self, path: &str) -> Result<Vec<u8>, Trouble> {
        let content = fs::read(self.rt, path)?;
        if !path.ends_with(".hex") {
            return Ok(content);
        }
        let digits = without_remarks(self.rt.alloc(), content.as_slice())?;
        let mut filter = Vec::new(self.rt.alloc());
        decode(digits.as_slice(), &mut filter)?;
        Ok(filter)
    }
}
