// `lines`: an answer to each line of the standard input.
use crate::files::Trouble;
use crate::tool::Tool;
use crate::writing::write_form;
use filter::reading::{Counts, read};
use hexadecimal::decoding::decode;
use hexadecimal::encoding::encode;
use hexadecimal::plain_text::trimmed;
use std::alloc::Global;
use std::io;
use std::io::{BufRead, BufReader, Write};
use tc::shipped::ShippedBook;
use wording::fault::Numbers;

/// What is used for one line after another.
#[derive(Drop)]
struct Desk {
    /// The filter of the line.
    filter: Vec<u8>,
    /// Its written form.
    written: Vec<u8>,
    /// The written form in hexadecimal.
    text: String,
}

impl Desk {
    fn new(heap: Global) -> Desk {
        Desk {
            filter: Vec::new(heap),
            written: Vec::new(heap),
            text: String::new(heap),
        }
    }

    /// Reads a line and writes out its filter: the counts, with the written form on the desk.
    fn work(&mut self, line: &[u8]) -> Result<Counts, Trouble> {
        decode(trimmed(line), &mut self.filter)?;
        let counts = read(&ShippedBook, self.filter.as_slice())?;
        write_form(self.filter.as_slice(), &mut self.written)?;
        Ok(counts)
    }

    /// Answers a line.
    fn answer<W: Write>(&mut self, line: &[u8], out: &mut W) -> io::Result<()> {
        match self.work(line) {
            Ok(counts) => self.accept(counts, out),
            Err(Trouble::NotHex) => out.write_all(b"not hex\n"),
            Err(Trouble::Refused(fault)) => {
                let numbers = Numbers(fault);
                writeln!(out, "{numbers}")
            }
            Err(Trouble::Unread(error)) => Err(error),
        }
    }

    /// Answers a line that is a filter.
    fn accept<W: Write>(&mut self, counts: Counts, out: &mut W) -> io::Result<()> {
        let Counts {
            options,
            actions,
            action_options,
        } = counts;
        self.text.clear();
        encode(self.written.as_slice(), &mut self.text)?;
        if self.text.is_empty() {
            self.text.push('-')?;
        }
        let text = self.text.as_str();
        writeln!(out, "ok {options} {actions} {action_options} {text}")
    }
}

impl<'r, W: Write> Tool<'r, W> {
    /// Answers each line of the standard input with a line.
    pub(crate) fn answer_lines(&mut self) -> io::Result<()> {
        let mut input = BufReader::new(self.rt.alloc(), self.rt.stdin())?;
        let mut desk = Desk::new(self.rt.alloc());
        // No `split`, which takes memory for each line.
        let mut line = Vec::new(self.rt.alloc());
        for _ in 0..u64::MAX {
            line.clear();
            if input.read_until(b'\n', &mut line)? == 0 {
                break;
            }
            desk.answer(line.as_slice(), &mut self.out)?;
        }
        Ok(())
    }
}
