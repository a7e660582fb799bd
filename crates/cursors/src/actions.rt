// A cursor over the actions in an option of a filter.
ghost use Rattle.std.specs.Prelude.{◌≡◌};
ghost use Rattle.model.specs.Walk.{walk};
ghost use Rattle.model.specs.declared.fault.Layer.TheVariants.{Action};
ghost use Rattle.netlink.specs.Walking.{ahead};
ghost use Rattle.tc_filter.specs.Kinds.{place_inside};
ghost use Rattle.cursors.specs.Moves.{ActionStep};
ghost use Rattle.cursors.specs.Ends.{ended_there, stays_there};

use crate::parts::{Part, Parts};
use model::fault::{Fault, Layer};
use netlink::buffer::NlaBuffer;
use tc_filter::action::TcAction;

/// A cursor over the actions in an option: each with its tab and its kind, or its fault.
pub type Actions<'a> = Parts<'a, TcAction<'a>>;

impl<'a> Part<'a> for TcAction<'a> {
    ghost step = { ActionStep };

    ghost ends = { λ s t g. (λ m. ended_there s t g _, stays_there s t g) };

    fn of(found: Result<NlaBuffer<'a>, Fault>) -> Result<TcAction<'a>, Fault> {
        let nla = found?;
        TcAction::parse(&nla)
    }
}

impl<'a> Actions<'a> {
    /// At the first action in an option of type 7.
    pub fn new(option: &NlaBuffer<'a>) -> Actions<'a>
        ensures walks { ahead result.walk ≡ walk (place_inside option.now) option.now.value.now }
        ensures layer { result.walk.layer ≡ Action }
    {
        Parts::over(option.nested(Layer::Action))
    }
}
