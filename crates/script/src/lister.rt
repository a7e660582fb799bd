// The calls that put the attributes of one layer on a page, and the one loop over a row of them.
ghost use Rattle.std.specs.Prelude.{◌≡◌, ℕ, ◌+◌, ◌≤◌, ◌++◌, List, length, vec_items, OnOk};
ghost use Rattle.model.specs.Runs.{Turn};
ghost use Rattle.netlink.specs.Walking.{ahead};
ghost use Rattle.page_build.specs.Fillings.{row_turns};
ghost use Rattle.script.specs.Listings.{own_turns};

use netlink::buffer::NlaBuffer;
use netlink::walker::NlasIterator;
use page::call::Call;
use std::alloc::AllocError;

/// How the attributes of one layer are put on a page, as a list of calls.
pub(crate) trait Lister {
    /// The turns for an attribute, by its place, word and payload.
    ghost turns: { Self → ℕ → ℕ → List ℕ → List Turn };

    /// Adds the calls for an attribute, with all that is inside.
    fn list<'a>(&self, calls: &mut Vec<Call<'a>>, nla: &NlaBuffer<'a>) -> Result<(), AllocError>
        requires { nla.now.place + (4 + length nla.now.value.now) ≤ 65531 }
        ensures { OnOk result (own_turns (vec_items calls.new) ≡ own_turns (vec_items calls.old) ++ turns self.now nla.now.place nla.now.word nla.now.value.now) };
}

/// Adds the calls for a row of attributes, one after another.
pub(crate) fn list_each<'a, L: Lister>(
    lister: &L,
    calls: &mut Vec<Call<'a>>,
    walk: NlasIterator<'a>,
) -> Result<(), AllocError>
    requires { walk.end ≤ 65531 }
    ensures { OnOk result (own_turns (vec_items calls.new) ≡ own_turns (vec_items calls.old) ++ row_turns (L.Lister.turns lister.now) (ahead walk.entry)) }
{
    for nla in walk {
        let Ok(nla) = nla else {
            return Ok(());
        };
        lister.list(calls, &nla)?;
    }
    Ok(())
}
