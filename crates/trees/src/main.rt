// The reading of each line of the standard input, which is a filter in hexadecimal: a tree, or why there is none.
#![tactic(auto)]

use hexadecimal::decoding::decode;
use hexadecimal::plain_text::trimmed;
use std::io;
use std::io::{BufRead, BufReader, BufWriter, Write};
use tree::whole::Reading;
use wording::fault::Numbers;

/// Shows a filter, or why it is refused.
fn show<W: Write>(filter: &[u8], out: &mut W) -> io::Result<()> {
    match Reading::of(filter) {
        Ok(reading) => write!(out, "{reading}"),
        Err(fault) => {
            let numbers = Numbers(fault);
            writeln!(out, "{numbers}")
        }
    }
}

fn main(rt: HostRuntime) -> io::Result<()> {
    let mut input = BufReader::new(rt.alloc(), rt.stdin())?;
    let mut out = BufWriter::new(rt.alloc(), rt.stdout())?;
    // No `split`, which takes memory for each line.
    let mut line = Vec::new(rt.alloc());
    let mut filter = Vec::new(rt.alloc());
    for _ in 0..u64::MAX {
        line.clear();
        if input.read_until(b'\n', &mut line)? == 0 {
            break;
        }
        match decode(trimmed(line.as_slice()), &mut filter) {
            Ok(()) => show(filter.as_slice(), &mut out)?,
            Err(_) => out.write_all(b"not hex\n")?,
        }
        out.write_all(b".\n")?;
    }
    out.flush()
}
