// A filter that is not too long, an attribute of it, and a row of attributes of it.
ghost use Rattle.std.specs.Prelude.{◌≡◌, ◌+◌, ◌<◌, ◌≤◌, length, IfOk, IfErr};
ghost use Rattle.model.specs.declared.fault.Cause.TheVariants.{TooLong};
ghost use Rattle.model.specs.declared.fault.Layer.TheVariants.{FilterOption};
ghost use Rattle.std.specs.Iterator.{at_most};
ghost use Rattle.model.specs.Walk.{walk};
ghost use Rattle.netlink.specs.Walking.{ahead};

use crate::reading::LONGEST_FILTER;
use model::fault::{Cause, Fault, Layer};
use netlink::buffer::NlaBuffer;
use netlink::walker::NlasIterator;

/// A filter of at most 65,531 bytes.
#[derive(Clone, Copy)]
pub(crate) struct Filter<'a> {
    pub(crate) bytes: &'a [u8],
    ghost short: { length bytes.now ≤ 65531 },
}

/// An attribute of a filter of at most 65,531 bytes.
#[derive(Clone, Copy)]
pub(crate) struct Part<'a> {
    pub(crate) nla: NlaBuffer<'a>,
    ghost inside: { nla.place + (4 + length nla.value.now) ≤ 65531 },
}

/// A row of attributes of a filter of at most 65,531 bytes.
#[derive(Clone, Copy)]
pub(crate) struct Row<'a> {
    pub(crate) walk: NlasIterator<'a>,
    ghost inside: { walk.end ≤ 65531 },
}

impl<'a> Filter<'a> {
    /// The bytes as a filter, where they are not too many.
    pub(crate) fn new(bytes: &'a [u8]) -> Result<Filter<'a>, Fault>
        ensures fits { IfOk result (λ f. f.bytes ≡ bytes.entry) }
        ensures refused { IfErr result (λ e. (65531 < length bytes.entry.now) × (e ≡ record { cause = TooLong; place = 0; layer = FilterOption; need = 0; number = 0 })) }
    {
        if bytes.len() > LONGEST_FILTER {
            return Err(Fault::new(Cause::TooLong, 0, Layer::FilterOption));
        }
        Ok(Filter { bytes })
    }

    /// The row of its options.
    pub(crate) fn row(&self) -> Row<'a>
        ensures walks { ahead result.walk ≡ walk 0 self.now.bytes.now }
        ensures layer { result.walk.layer ≡ FilterOption }
    {
        Row {
            walk: NlasIterator::new(self.bytes, Layer::FilterOption),
        }
    }
}

impl<'a> Part<'a> {
    /// The row of attributes in the payload.
    pub(crate) fn row(&self, layer: Layer) -> Row<'a>
        ensures walks { ahead result.walk ≡ walk (self.now.nla.place + 4) self.now.nla.value.now }
        ensures rest { result.walk.rest.now ≡ self.now.nla.value.now }
        ensures layer { result.walk.layer ≡ layer }
    {
        Row {
            walk: self.nla.nested(layer),
        }
    }
}

impl<'a> Iterator for Row<'a> {
    ghost use Rattle.filter.specs.Parts.{PartGoes};

    type Item = Result<Part<'a>, Fault>;

    ghost can_next = { λ _. Unit {0} };

    ghost next_gives = { PartGoes };

    ghost remaining = { λ s. at_most (length s.walk.rest.now) };

    fn next(&mut self) -> Option<Result<Part<'a>, Fault>> {
        // No `map` of a `map`: that what was found lies inside is known here, and not in a closure.
        match self.walk.next() {
            Some(Ok(nla)) => Some(Ok(Part { nla })),
            Some(Err(fault)) => Some(Err(fault)),
            None => None,
        }
    }
}
