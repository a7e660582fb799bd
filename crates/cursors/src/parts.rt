// A cursor over the attributes in a part of a filter, whatever they are read as.
ghost use Rattle.std.specs.Prelude.{◌≡◌, ◌^◌, ◌<◌, Some, None, Option, Result};
ghost use Rattle.model.specs.declared.fault.Fault.{Fault};
ghost use Rattle.netlink.specs.declared.walker.NlasIterator.{NlasIterator};
ghost use Rattle.netlink.specs.Walking.{Goes};
ghost use Rattle.cursors.specs.Moves.{left_of};
ghost use Rattle.std.specs.Iterator.{at_most};

use model::fault::Fault;
use netlink::buffer::NlaBuffer;
use netlink::walker::NlasIterator;
use std::alloc::AllocError;
use std::marker::PhantomData;

/// What an attribute that a walk found is read as.
pub trait Part<'a>: Sized {
    /// One call of a cursor over such parts: from the walk before it, by its answer, to the walk after it.
    ghost step: { NlasIterator → Option (Result Self Fault) → NlasIterator → Type 0 };

    /// The part, or its fault. So a step of the walk becomes a step of the cursor.
    fn of(found: Result<NlaBuffer<'a>, Fault>) -> Result<Self, Fault>
        ensures { (s t : NlasIterator) → s.end < 2 ^ 64 → Goes s (Some found.entry) t → step s (Some result) t };

    /// Where the walk ends, so does the cursor.
    ghost ends: { (s t : NlasIterator) → Goes s None t → step s None t };
}

/// A cursor over parts: each as it reads by itself, or its fault.
pub struct Parts<'a, T> {
    walk: NlasIterator<'a>,
    part: PhantomData<T>,
    ghost inside: { walk.end < 2 ^ 64 },
}

// Written out, since no derive goes with a ghost field beside a type parameter.
impl<'a, T> Clone for Parts<'a, T> {
    ghost is_clone = { λ x y. y ≡ x };

    ghost is_infallible = { λ _. Unit {0} };

    fn clone(&self) -> Result<Self, AllocError> {
        Ok(*self)
    }
}

impl<'a, T> Copy for Parts<'a, T> {}

impl<'a, T> Parts<'a, T> {
    /// At the front of a walk.
    pub(crate) fn over(walk: NlasIterator<'a>) -> Parts<'a, T>
        ensures { result.walk ≡ walk.entry }
    {
        Parts {
            walk,
            part: PhantomData,
        }
    }
}

impl<'a, T: Part<'a>> Iterator for Parts<'a, T> {
    type Item = Result<T, Fault>;

    ghost can_next = { λ _. Unit {0} };

    ghost next_gives = { λ s r t. T.step s.walk r t.walk };

    ghost remaining = { λ s. at_most (left_of s.walk) };

    fn next(&mut self) -> Option<Result<T, Fault>> {
        // `map(T::of)` is not stated yet where the bound names a lifetime, and of a closure in generic code nothing is known.
        let found = self.walk.next()?;
        Some(T::of(found))
    }
}
