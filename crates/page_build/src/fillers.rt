// The four layers of a filter.
ghost use Rattle.page_build.specs.Fillings.{option_turns_at, nested_turns_at, chosen_turns_at};

use crate::filler::{Filler, fill_each};
use model::fault::Layer;
use netlink::buffer::NlaBuffer;
use page::page::Page;
use tc::book::Book;
use tc_filter::action_attribute::TCA_ACT_OPTIONS;
use tc_filter::cls_u32::TCA_U32_ACT;

/// Each attribute is put.
#[derive(Drop)]
pub(crate) struct Puts;

impl Filler for Puts {
    ghost turns = { λ _. option_turns_at };

    fn fill<B: Book>(&self, book: &B, page: &mut Page, memory: &mut [u8], nla: &NlaBuffer<'_>) {
        let _ = page.put(book, memory, nla.word, nla.value);
    }
}

/// Each attribute is a nest: it is opened by its type, filled with what is inside, which is of this layer, and closed.
#[derive(Drop)]
pub(crate) struct Nests<F> {
    layer: Layer,
    inside: F,
}

impl<F: Filler> Filler for Nests<F> {
    ghost turns = { λ s. nested_turns_at (F.turns s.inside) };

    fn fill<B: Book>(&self, book: &B, page: &mut Page, memory: &mut [u8], nla: &NlaBuffer<'_>) {
        let _ = page.open(book, memory, nla.kind());
        fill_each(&self.inside, book, page, memory, nla.nested(self.layer));
        let _ = page.close(book, memory);
    }
}

/// Each attribute of one type goes the way that is given for it, and any other is put.
#[derive(Drop)]
pub(crate) struct Chosen<F, const KIND: u16> {
    way: F,
}

impl<F: Filler, const KIND: u16> Filler for Chosen<F, KIND> {
    ghost turns = { λ s. chosen_turns_at KIND (F.turns s.way) };

    fn fill<B: Book>(&self, book: &B, page: &mut Page, memory: &mut [u8], nla: &NlaBuffer<'_>) {
        if nla.kind() != KIND {
            let _ = page.put(book, memory, nla.word, nla.value);
            return;
        }
        self.way.fill(book, page, memory, nla);
    }
}

/// The attributes of an action: a list of options is a nest.
type Attributes = Chosen<Nests<Puts>, TCA_ACT_OPTIONS>;

/// Actions: each is a nest.
type Actions = Nests<Attributes>;

/// The options of a filter: a list of actions is a nest.
pub(crate) type FilterOptions = Chosen<Nests<Actions>, TCA_U32_ACT>;

/// How the options of a filter are put on a page, with all that is inside.
pub(crate) const FILTER_OPTIONS: FilterOptions = Chosen {
    way: Nests {
        layer: Layer::Action,
        inside: Nests {
            layer: Layer::ActionAttribute,
            inside: Chosen {
                way: Nests {
                    layer: Layer::ActionOption,
                    inside: Puts,
                },
            },
        },
    },
};
