// A cursor over the attributes of an action.
ghost use Rattle.std.specs.Prelude.{◌≡◌};
ghost use Rattle.model.specs.Walk.{walk};
ghost use Rattle.model.specs.declared.fault.Layer.TheVariants.{ActionAttribute};
ghost use Rattle.netlink.specs.Walking.{ahead};
ghost use Rattle.tc_filter.specs.Kinds.{place_inside};
ghost use Rattle.cursors.specs.Moves.{AttributeStep};
ghost use Rattle.cursors.specs.Ends.{ended_there, stays_there};

use crate::parts::{Part, Parts};
use model::fault::{Fault, Layer};
use netlink::buffer::NlaBuffer;
use payload::error::ErrorContext;
use tc_filter::action::TcAction;
use tc_filter::action_attribute::TcActionAttribute;

/// A cursor over the attributes of an action: each as it reads by itself, or its fault.
pub type Attributes<'a> = Parts<'a, TcActionAttribute<'a>>;

impl<'a> Part<'a> for TcActionAttribute<'a> {
    ghost step = { AttributeStep };

    ghost ends = { λ s t g. (λ m k. ended_there s t g _, stays_there s t g) };

    fn of(found: Result<NlaBuffer<'a>, Fault>) -> Result<TcActionAttribute<'a>, Fault> {
        let nla = found?;
        TcActionAttribute::parse(&nla).context(nla.place, Layer::ActionAttribute)
    }
}

impl<'a> Attributes<'a> {
    /// At the first attribute of an action.
    pub fn new(action: &TcAction<'a>) -> Attributes<'a>
        ensures walks { ahead result.walk ≡ walk (place_inside action.now.attributes) action.now.attributes.value.now }
        ensures layer { result.walk.layer ≡ ActionAttribute }
    {
        Parts::over(action.attributes.nested(Layer::ActionAttribute))
    }
}
