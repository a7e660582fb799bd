// Walks a sample mirror entry in two spellings, writes each again, and says what differs.
#![tactic(auto)]

mod fields;
mod judging;
mod listing;
mod rewriting;

use fields::Fields;
use judging::Judgements;
use listing::Listing;
use rewriting::rewritten;
use sample::entry::{WITH_ZERO, WITHOUT_ZERO, entry};
use std::fmt::Display;
use std::io;

/// Prints the lines of a text, indented.
fn print_indented<T: Display>(rt: &HostRuntime, shown: &T) -> io::Result<()> {
    for line in format!(in rt.alloc(); "{shown}")?.lines() {
        println!(rt; "  {line}")?;
    }
    Ok(())
}

/// Prints a title, and the lines of a text below it.
fn print_below<T: Display>(rt: &HostRuntime, title: &str, shown: &T) -> io::Result<()> {
    println!(rt; "{title}:")?;
    print_indented(rt, shown)?;
    println!(rt; "")
}

/// Shows every attribute of a filter, and what the one writer makes of them.
fn show(rt: &HostRuntime, title: &str, filter: &[u8]) -> io::Result<()> {
    let length = filter.len();
    println!(rt; "{title}, {length} bytes:")?;
    print_indented(rt, &Listing(filter))?;
    match rewritten(rt.alloc(), filter) {
        Ok(written) => {
            let length = written.len();
            let verdict = if written.as_slice() == filter {
                "the same bytes"
            } else {
                "other bytes"
            };
            println!(rt; "Written again by the one writer, {length} bytes: {verdict}.")?;
        }
        Err(unwritten) => println!(rt; "Not written again: {unwritten}.")?,
    }
    println!(rt; "")
}

/// Prints two lines if they differ.
fn print_difference(rt: &HostRuntime, one: &str, other: &str) -> io::Result<()> {
    if one != other {
        println!(rt; "- {one}")?;
        println!(rt; "+ {other}")?;
    }
    Ok(())
}

/// Shows the attributes in which two filters differ, line by line.
fn compare(rt: &HostRuntime, first: &[u8], second: &[u8]) -> io::Result<()> {
    println!(rt; "What differs:")?;
    let (first, second) = (Listing(first), Listing(second));
    let ours = format!(in rt.alloc(); "{first}")?;
    let theirs = format!(in rt.alloc(); "{second}")?;
    for (one, other) in ours.lines().zip(theirs.lines()) {
        print_difference(rt, one, other)?;
    }
    println!(rt; "")
}

fn main(rt: HostRuntime) -> io::Result<()> {
    println!(rt;
        "A heat meter's mirror entry in two spellings: its kind text with and without a zero at the end."
    )?;
    println!(rt; "")?;
    let with_zero = entry(rt.alloc(), WITH_ZERO)?;
    let without_zero = entry(rt.alloc(), WITHOUT_ZERO)?;
    show(&rt, "With the zero", with_zero.as_slice())?;
    show(&rt, "Without the zero", without_zero.as_slice())?;
    compare(&rt, with_zero.as_slice(), without_zero.as_slice())?;
    print_below(
        &rt,
        "Class and selector of both",
        &Fields(with_zero.as_slice()),
    )?;
    print_below(
        &rt,
        "The shipped book on the action option of the first",
        &Judgements(with_zero.as_slice()),
    )?;
    print_below(
        &rt,
        "And of the second",
        &Judgements(without_zero.as_slice()),
    )?;
    println!(rt;
        "Both kinds are the text \"mirred\". Attributes written as they stand keep the two spellings apart."
    )?;
    println!(rt; "")?;
    let mut damaged = with_zero;
    let _ = damaged.pop();
    show(&rt, "A copy with its last byte cut off", damaged.as_slice())
}
