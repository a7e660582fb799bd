// The four layers of a filter, as calls.
ghost use Rattle.page_build.specs.Fillings.{option_turns_at, nested_turns_at, chosen_turns_at};

use crate::lister::{Lister, list_each};
use model::fault::Layer;
use netlink::buffer::NlaBuffer;
use page::call::Call;
use std::alloc::AllocError;
use tc_filter::action_attribute::TCA_ACT_OPTIONS;
use tc_filter::cls_u32::TCA_U32_ACT;

// The same three ways as in `page_build`, which makes the calls on a page and needs no heap; here they are listed, which fails where no memory is found.
/// Each attribute is put.
#[derive(Drop)]
pub(crate) struct Puts;

impl Lister for Puts {
    ghost turns = { λ _. option_turns_at };

    fn list<'a>(&self, calls: &mut Vec<Call<'a>>, nla: &NlaBuffer<'a>) -> Result<(), AllocError> {
        calls.push(Call::Put(nla.word, nla.value))?;
        Ok(())
    }
}

/// Each attribute is a nest: it is opened by its type, filled with what is inside, which is of this layer, and closed.
#[derive(Drop)]
pub(crate) struct Nests<L> {
    layer: Layer,
    inside: L,
}

impl<L: Lister> Lister for Nests<L> {
    ghost turns = { λ s. nested_turns_at (L.turns s.inside) };

    fn list<'a>(&self, calls: &mut Vec<Call<'a>>, nla: &NlaBuffer<'a>) -> Result<(), AllocError> {
        calls.push(Call::Open(nla.kind()))?;
        list_each(&self.inside, calls, nla.nested(self.layer))?;
        calls.push(Call::Close)?;
        Ok(())
    }
}

/// Each attribute of one type goes the way that is given for it, and any other is put.
#[derive(Drop)]
pub(crate) struct Chosen<L, const KIND: u16> {
    way: L,
}

impl<L: Lister, const KIND: u16> Lister for Chosen<L, KIND> {
    ghost turns = { λ s. chosen_turns_at KIND (L.turns s.way) };

    fn list<'a>(&self, calls: &mut Vec<Call<'a>>, nla: &NlaBuffer<'a>) -> Result<(), AllocError> {
        if nla.kind() != KIND {
            return Puts.list(calls, nla);
        }
        self.way.list(calls, nla)
    }
}

/// The attributes of an action: a list of options is a nest.
type Attributes = Chosen<Nests<Puts>, TCA_ACT_OPTIONS>;

/// Actions: each is a nest.
type Actions = Nests<Attributes>;

/// The options of a filter: a list of actions is a nest.
pub(crate) type FilterOptions = Chosen<Nests<Actions>, TCA_U32_ACT>;

/// How the options of a filter are put on a page, with all that is inside.
pub(crate) const FILTER_OPTIONS: FilterOptions = Chosen {
    way: Nests {
        layer: Layer::Action,
        inside: Nests {
            layer: Layer::ActionAttribute,
            inside: Chosen {
                way: Nests {
                    layer: Layer::ActionOption,
                    inside: Puts,
                },
            },
        },
    },
};
