// The tool: shows how filters are read, how they are written, and whether two are one entry.
#![tactic(auto)]

mod building;
mod files;
mod lines;
mod reading;
mod sameness;
mod scripts;
mod tool;
mod writing;

use commands::command::Command;
use commands::usage::USAGE;
use std::io::{BufWriter, Write};
use std::process::ExitCode;
use std::{env, io};
use tool::Tool;

impl<'r, W: Write> Tool<'r, W> {
    /// Does what a command says with its files.
    fn obey(&mut self, command: Command, files: &[String]) -> io::Result<()> {
        // The one place where a command is matched with what it does.
        match (command, files) {
            (Command::Read, files) => self.read_files(files),
            (Command::Write, [file]) => self.write_file(file.as_str()),
            (Command::Same, [first, second]) => {
                self.compare_files(first.as_str(), second.as_str())
            }
            (Command::Lines, []) => self.answer_lines(),
            (Command::Page, [script]) => self.run_script(script.as_str()),
            (Command::Build, [file]) => self.build_file(file.as_str()),
            _ => {
                self.status = ExitCode::FAILURE;
                self.out.write_all(USAGE.as_bytes())
            }
        }
    }
}

/// Does what the words of the call say.
fn run(rt: &HostRuntime) -> io::Result<ExitCode> {
    let words: Vec<String> = env::args(rt)?.skip(1).collect(rt.alloc())?;
    let mut tool = Tool::new(rt, BufWriter::new(rt.alloc(), rt.stdout())?);
    match words.as_slice() {
        [] => tool.out.write_all(USAGE.as_bytes())?,
        [word, files @ ..] => {
            tool.obey(Command::named(word.as_str(), files.len()), files)?;
        }
    }
    tool.out.flush()?;
    Ok(tool.status)
}

/// Ends with status 1 where something was refused; why was said.
fn main(rt: HostRuntime) -> ExitCode {
    match run(&rt) {
        Ok(status) => status,
        Err(error) => {
            let _ = eprintln!(rt; "rusvepa: {error}");
            ExitCode::FAILURE
        }
    }
}
