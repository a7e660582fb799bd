// What reading a row of attributes finds, in numbers.
ghost use Rattle.std.specs.Prelude.{◌≡◌, ◌+◌, ◌*◌, ◌≤◌};
ghost use Rattle.model.specs.Attributes.{rounded};
ghost use Rattle.filter.specs.Tallies.{Addable, joined};

use std::ops::Add;

/// The numbers of a row of attributes: how many they are, how many actions and action options are inside, and how many bytes their written form has.
#[derive(Clone, Copy, Default)]
pub(crate) struct Tally {
    pub(crate) items: usize,
    pub(crate) actions: usize,
    pub(crate) action_options: usize,
    pub(crate) length: usize,
}

impl Tally {
    /// An attribute with nothing inside, whose payload is written as so many bytes.
    pub(crate) fn leaf(payload: usize) -> Tally
        requires { payload ≤ 131072 }
        ensures { result ≡ record { items = 1; actions = 0; action_options = 0; length = 4 + rounded payload } }
    {
        Tally {
            items: 1,
            actions: 0,
            action_options: 0,
            length: 4 + (payload + 3) / 4 * 4,
        }
    }

    /// An attribute with a row of attributes inside.
    pub(crate) fn nest(self, actions: usize, action_options: usize) -> Tally
        requires { self.length ≤ 131072 }
        ensures { result ≡ record { items = 1; actions = actions; action_options = action_options; length = 4 + self.length } }
    {
        Tally {
            items: 1,
            actions,
            action_options,
            length: 4 + self.length,
        }
    }
}

/// One row behind the other.
impl Add for Tally {
    type Output = Tally;

    ghost can_add = { Addable };

    ghost add_gives = { λ s t r. r ≡ joined s t };

    fn add(self, other: Tally) -> Tally {
        Tally {
            items: self.items + other.items,
            actions: self.actions + other.actions,
            action_options: self.action_options + other.action_options,
            length: self.length + other.length,
        }
    }
}
