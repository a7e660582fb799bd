// A cursor over the options of a filter.
ghost use Rattle.std.specs.Prelude.{◌≡◌};
ghost use Rattle.model.specs.Walk.{walk};
ghost use Rattle.model.specs.declared.fault.Layer.TheVariants.{FilterOption};
ghost use Rattle.netlink.specs.Walking.{ahead};
ghost use Rattle.cursors.specs.Moves.{OptionStep};
ghost use Rattle.cursors.specs.Ends.{ended_there, stays_there};

use crate::parts::{Part, Parts};
use model::fault::{Fault, Layer};
use netlink::buffer::NlaBuffer;
use netlink::walker::NlasIterator;
use payload::error::ErrorContext;
use tc_filter::cls_u32::TcFilterU32Option;

/// A cursor over the options of a filter: each as it reads by itself, or its fault.
pub type Options<'a> = Parts<'a, TcFilterU32Option<'a>>;

impl<'a> Part<'a> for TcFilterU32Option<'a> {
    ghost step = { OptionStep };

    ghost ends = { λ s t g. (λ m. ended_there s t g _, stays_there s t g) };

    fn of(found: Result<NlaBuffer<'a>, Fault>) -> Result<TcFilterU32Option<'a>, Fault> {
        let nla = found?;
        TcFilterU32Option::parse(&nla).context(nla.place, Layer::FilterOption)
    }
}

impl<'a> Options<'a> {
    /// At the first option of a filter.
    pub fn new(filter: &'a [u8]) -> Options<'a>
        ensures walks { ahead result.walk ≡ walk 0 filter.now }
        ensures layer { result.walk.layer ≡ FilterOption }
    {
        Parts::over(NlasIterator::new(filter, Layer::FilterOption))
    }
}
