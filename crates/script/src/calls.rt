// The calls that build a written form, each as a line.
ghost use Rattle.std.specs.Prelude.{◌≡◌, vec_items, IfOk};
ghost use Rattle.script.specs.Listings.{own_turns};
ghost use Rattle.script.specs.Readings.{HasReadingTurns};
ghost use Rattle.script.specs.Scripts.{Scripted};
ghost use Rattle.script.specs.declared.calls.Unscripted.TheVariants.{NoMemory};

use crate::lister::list_each;
use crate::listers::FILTER_OPTIONS;
use model::fault::{Cause, Fault, Layer};
use netlink::nla::LONGEST_PAYLOAD;
use netlink::walker::NlasIterator;
use page::call::Call;
use shown::bytes::Bytes;
use std::alloc::{AllocError, Global};
use std::fmt;

/// The calls that build a filter's written form on a new page of just its length. It is shown as the lines of a script, at the end of which the page is read and told.
#[derive(Drop)]
pub struct Script<'a> {
    // The length of the page that the calls fill, and no length of `calls`.
    size: usize,
    calls: Vec<Call<'a>>,
}

/// Why there is no script for a written form.
#[derive(Clone, Copy, Debug)]
pub enum Unscripted {
    /// It is too long for a page.
    Refused(Fault),
    /// No memory was found for the calls.
    NoMemory,
}

impl From<AllocError> for Unscripted {
    ghost from_gives = { λ _ r. r ≡ NoMemory };

    fn from(_error: AllocError) -> Unscripted {
        Unscripted::NoMemory
    }
}

impl<'a> Script<'a> {
    /// The script for a written form: the calls by which a filter is built on a page. A form that is too long for a page is refused by cause 1, as the page would be.
    pub fn of(heap: Global, written: &'a [u8]) -> Result<Script<'a>, Unscripted>
        ensures value { Scripted written.now result }
        ensures builds { IfOk result (λ s. HasReadingTurns written.now (own_turns (vec_items s.calls))) }
    {
        if written.len() > LONGEST_PAYLOAD {
            let fault = Fault::new(Cause::TooLong, 0, Layer::FilterOption);
            return Err(Unscripted::Refused(fault));
        }
        let mut calls = Vec::new(heap);
        let walk = NlasIterator::new(written, Layer::FilterOption);
        list_each(&FILTER_OPTIONS, &mut calls, walk)?;
        Ok(Script {
            size: written.len(),
            calls,
        })
    }
}

/// A call as a line.
#[derive(Clone, Copy)]
struct CallLine<'a>(Call<'a>);

impl<'a> fmt::Display for CallLine<'a> {
    fn fmt<W: fmt::Write>(&self, f: &mut fmt::Formatter<W>) -> fmt::Result {
        match self.0 {
            Call::Put(word, payload) => {
                let payload = Bytes(payload);
                write!(f, "put 0x{word:04x} {payload}")
            }
            Call::Open(kind) => write!(f, "open {kind}"),
            Call::Close => f.write_str("close"),
            Call::Strike => f.write_str("strike"),
        }
    }
}

impl<'a> fmt::Display for Script<'a> {
    fn fmt<W: fmt::Write>(&self, f: &mut fmt::Formatter<W>) -> fmt::Result {
        let size = self.size;
        writeln!(f, "new {size}")?;
        for call in self.calls.as_slice() {
            let line = CallLine(*call);
            writeln!(f, "{line}")?;
        }
        f.write_str("read\nbytes\n")
    }
}
