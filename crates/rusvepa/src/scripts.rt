// `page`: a page's calls, line by line.
use crate::files::Trouble;
use crate::tool::Tool;
use filter::reading::{Counts, read};
use model::fault::Fault;
use script::line::Line;
use script::sheet::Sheet;
use script::wrong::Wrong;
use shown::bytes::Bytes;
use std::alloc::{AllocError, AllocFailed, Global};
use std::io::Write;
use std::process::ExitCode;
use std::{fmt, fs, io};
use tc::shipped::ShippedBook;
use thiserror::Error;
use wording::fault::Numbers;

/// What a line is answered.
#[derive(Clone, Copy)]
enum Answer<'a> {
    /// Nothing, to a blank line or a remark.
    Nothing,
    /// That a page is made, or a call accepted.
    Done,
    /// The counts of the page's reading.
    Read(Counts),
    /// The page's bytes.
    Bytes(&'a [u8]),
}

impl<'a> fmt::Display for Answer<'a> {
    fn fmt<W: fmt::Write>(&self, f: &mut fmt::Formatter<W>) -> fmt::Result {
        match self {
            Answer::Nothing => Ok(()),
            Answer::Done => f.write_str("ok\n"),
            Answer::Read(counts) => {
                let Counts {
                    options,
                    actions,
                    action_options,
                } = *counts;
                writeln!(f, "ok {options} {actions} {action_options}")
            }
            Answer::Bytes(bytes) => {
                let bytes = Bytes(*bytes);
                writeln!(f, "{bytes}")
            }
        }
    }
}

/// Why a line is not obeyed.
#[derive(Debug, Drop, Error)]
enum Disobeyed {
    /// It is no line of a script.
    #[error("{0}")]
    NoLine(#[from] Wrong),
    /// There is no page yet.
    #[error("there is no page before new")]
    NoPage,
    /// The call, the making of the page or its reading is refused.
    #[error("{}", Numbers(*.0))]
    Refused(#[from] Fault),
    /// There is no memory for the page.
    #[error("{0}")]
    NoMemory(#[from] io::Error),
}

impl From<AllocError> for Disobeyed {
    fn from(error: AllocError) -> Disobeyed {
        Disobeyed::NoMemory(error.into())
    }
}

/// A script's run, as far as it has come.
#[derive(Drop)]
struct Run {
    heap: Global,
    /// The page that was made last, with its memory.
    sheet: Option<Sheet>,
}

impl Run {
    /// The page, where there is one.
    fn sheet(&mut self) -> Result<&mut Sheet, Disobeyed> {
        match &mut self.sheet {
            Some(sheet) => Ok(sheet),
            None => Err(Disobeyed::NoPage),
        }
    }

    /// Memory of so many bytes.
    fn memory(&self, size: u32) -> Result<Vec<u8>, Disobeyed> {
        let memory = vec![in self.heap; 0u8; size as usize]?;
        Ok(memory)
    }

    /// Does what a line says.
    fn obey(&mut self, text: &[u8]) -> Result<Answer<'_>, Disobeyed> {
        match Line::read(self.heap, text)? {
            Line::Nothing => Ok(Answer::Nothing),
            Line::New(size) => {
                self.sheet = Some(Sheet::new(self.memory(size)?)?);
                Ok(Answer::Done)
            }
            Line::Call(told) => {
                self.sheet()?.make(told.call())?;
                Ok(Answer::Done)
            }
            Line::With(size, told) => {
                let mut memory = self.memory(size)?;
                self.sheet()?.make_with(memory.as_mut_slice(), told.call())?;
                Ok(Answer::Done)
            }
            Line::Read => Ok(Answer::Read(read(&ShippedBook, self.sheet()?.bytes())?)),
            Line::Bytes => Ok(Answer::Bytes(self.sheet()?.bytes())),
        }
    }
}

impl<'r, W: Write> Tool<'r, W> {
    /// Answers a line of a script.
    fn answer_line(&mut self, run: &mut Run, number: usize, text: &[u8]) -> io::Result<()> {
        match run.obey(text) {
            Ok(answer) => write!(self.out, "{answer}"),
            Err(Disobeyed::Refused(fault)) => {
                let numbers = Numbers(fault);
                writeln!(self.out, "{numbers}")
            }
            Err(Disobeyed::NoMemory(error)) => Err(error),
            Err(wrong) => {
                self.status = ExitCode::FAILURE;
                writeln!(self.out, "line {number}: {wrong}")
            }
        }
    }

    /// Answers each line of a script with a line.
    pub(crate) fn run_script(&mut self, path: &str) -> io::Result<()> {
        let script = match fs::read(self.rt, path) {
            Ok(script) => script,
            Err(error) => return self.complain(path, &Trouble::Unread(error)),
        };
        let mut run = Run {
            heap: self.rt.alloc(),
            sheet: None,
        };
        for (number, text) in script.as_slice().split(|c| *c == b'\n').enumerate() {
            self.answer_line(&mut run, number + 1, text)?;
        }
        Ok(())
    }
}
