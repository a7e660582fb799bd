// Reads a sample mirror entry in its two spellings, writes both out, shows that they are one, and puts it together on a page.
#![tactic(auto)]

mod building;
mod canonical;

use building::show_building;
use canonical::{compare_canonical, show_canonical};
use sample::entry::{WITH_ZERO, WITHOUT_ZERO, entry};
use std::io;

fn main(rt: HostRuntime) -> io::Result<()> {
    println!(rt;
        "A heat meter's mirror entry in two spellings: its kind text with and without a zero at the end."
    )?;
    println!(rt; "")?;
    let with_zero = entry(rt.alloc(), WITH_ZERO)?;
    let without_zero = entry(rt.alloc(), WITHOUT_ZERO)?;
    show_canonical(&rt, "With the zero", with_zero.as_slice())?;
    show_canonical(&rt, "Without the zero", without_zero.as_slice())?;
    compare_canonical(&rt, with_zero.as_slice(), without_zero.as_slice())?;
    let whole = with_zero.as_slice();
    let cut = &whole[..whole.len().saturating_sub(1)];
    show_canonical(&rt, "A copy with its last byte cut off", cut)?;
    show_building(&rt, whole, without_zero.as_slice())
}
