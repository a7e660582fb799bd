// The entry put together on a page call by call, with a refused call and a strike on the way.
use crate::canonical::{show_canonical, written};
use model::fault::Fault;
use page::call::Call;
use page::page::Page;
use std::alloc::Global;
use std::{fmt, io};
use tc::shipped::ShippedBook;
use tc_filter::action_attribute::{TCA_ACT_KIND, TCA_ACT_OPTIONS};
use tc_filter::cls_u32::{TCA_U32_ACT, TCA_U32_CLASSID, TCA_U32_SEL};
use wording::fault::Sentence;

/// How many bytes the entry's written form has.
const LENGTH: usize = 100;

/// Class 1:1.
const CLASS: &[u8] = b"\x01\x00\x01\x00";

/// A selector with one key: the two bytes at 22 of the packet are port 10001.
const SELECTOR: &[u8] =
    b"\x01\x00\x01\x00\x00\x00\x00\x00\x00\x00\x00\x00\x00\x00\x00\x00\x00\x00\xFF\xFF\x00\x00\x27\x11\x14\x00\x00\x00\x00\x00\x00\x00";

/// The kind of the action, with the zero after its text.
const KIND: &[u8] = b"mirred\x00";

/// Mirror to interface 8, and go on with the next action: the wrong interface.
const WRONG: &[u8] =
    b"\x01\x00\x00\x00\x00\x00\x00\x00\x03\x00\x00\x00\x00\x00\x00\x00\x00\x00\x00\x00\x02\x00\x00\x00\x08\x00\x00\x00";

/// Mirror to interface 7, and go on with the next action.
const RIGHT: &[u8] =
    b"\x01\x00\x00\x00\x00\x00\x00\x00\x03\x00\x00\x00\x00\x00\x00\x00\x00\x00\x00\x00\x02\x00\x00\x00\x07\x00\x00\x00";

/// The type of a mirror action's parameters.
const TCA_MIRRED_PARMS: u16 = 2;

/// The tab of the one action.
const TAB: u16 = 1;

/// A call as it is told.
#[derive(Clone, Copy)]
struct Told<'a>(Call<'a>);

impl<'a> fmt::Display for Told<'a> {
    fn fmt<W: fmt::Write>(&self, f: &mut fmt::Formatter<W>) -> fmt::Result {
        match self.0 {
            Call::Put(word, value) => {
                let length = value.len();
                write!(f, "put of word {word:04X} with {length} bytes")
            }
            Call::Open(kind) => write!(f, "open of type {kind}"),
            Call::Close => f.write_str("close"),
            Call::Strike => f.write_str("strike"),
        }
    }
}

/// Tells a call, and whether it was accepted.
fn tell(rt: &HostRuntime, told: Told<'_>, answer: Result<(), Fault>) -> io::Result<()> {
    match answer {
        Ok(()) => println!(rt; "{told}: accepted"),
        Err(fault) => {
            let sentence = Sentence(fault);
            println!(rt; "{told}: refused, {sentence}")
        }
    }
}

/// Makes the calls on a page for this memory, and answers how many bytes of it are used then; nothing where no page can be made for it.
fn build(rt: &HostRuntime, memory: &mut [u8]) -> io::Result<Option<usize>> {
    let Ok(mut page) = Page::new(memory) else {
        return Ok(None);
    };
    let calls = [
        Call::Put(TCA_U32_CLASSID, CLASS),
        Call::Put(TCA_U32_SEL, SELECTOR),
        Call::Open(TCA_U32_ACT),
        Call::Open(TAB),
        Call::Close,
        Call::Put(TCA_ACT_KIND, KIND),
        Call::Open(TCA_ACT_OPTIONS),
        Call::Put(TCA_MIRRED_PARMS, WRONG),
        Call::Strike,
        Call::Open(TCA_ACT_OPTIONS),
        Call::Put(TCA_MIRRED_PARMS, RIGHT),
        Call::Close,
        Call::Close,
        Call::Close,
    ];
    for call in &calls {
        let answer = page.perform(&ShippedBook, memory, *call);
        tell(rt, Told(*call), answer)?;
    }
    Ok(Some(page.used()))
}

/// Whether a filter's written form is just these bytes.
fn is_written_as(heap: Global, filter: &[u8], bytes: &[u8]) -> bool {
    match written(heap, filter) {
        Ok(form) => form.as_slice() == bytes,
        Err(_) => false,
    }
}

/// Puts the entry together on a page, reads and writes it out, and compares it with two spellings.
pub(crate) fn show_building(rt: &HostRuntime, first: &[u8], second: &[u8]) -> io::Result<()> {
    println!(rt; "The same entry, put together on a page in memory of {LENGTH} bytes:")?;
    let mut memory = vec![in rt.alloc(); 0u8; LENGTH]?;
    let used = build(rt, memory.as_mut_slice())?;
    println!(rt; "")?;
    let bytes = match used {
        Some(used) if used <= memory.len() => &memory.as_slice()[..used],
        _ => &[],
    };
    show_canonical(rt, "The page", bytes)?;
    if is_written_as(rt.alloc(), first, bytes) && is_written_as(rt.alloc(), second, bytes) {
        println!(rt; "The page is the written form of both spellings, byte for byte.")
    } else {
        println!(rt; "The page is not the written form of both spellings.")
    }
}
