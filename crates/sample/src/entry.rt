// The sample entry, put together with its kind spelt one way or the other.
ghost use Rattle.std.specs.Prelude.{◌≡◌, ◌++◌, IfOk};
ghost use Rattle.sample.specs.Samples.{before_kind, behind_kind};

use std::alloc::{AllocError, Global};

/// Class 1:1.
const CLASS: &[u8] = b"\x08\x00\x01\x00\x01\x00\x01\x00";

/// A selector with one key: the two bytes at 22 of the packet are port 10001.
const SELECTOR: &[u8] =
    b"\x24\x00\x05\x00\x01\x00\x01\x00\x00\x00\x00\x00\x00\x00\x00\x00\x00\x00\x00\x00\x00\x00\xFF\xFF\x00\x00\x27\x11\x14\x00\x00\x00\x00\x00\x00\x00";

/// The heads of the list of actions and of its one action.
const ACTION: &[u8] = b"\x38\x00\x07\x00\x34\x00\x01\x00";

/// The action's options: mirror to interface 7, and go on with the next action.
const OPTIONS: &[u8] =
    b"\x24\x00\x02\x80\x20\x00\x02\x00\x01\x00\x00\x00\x00\x00\x00\x00\x03\x00\x00\x00\x00\x00\x00\x00\x00\x00\x00\x00\x02\x00\x00\x00\x07\x00\x00\x00";

/// The kind with a zero after its text, as the `tc` tool writes it.
pub const WITH_ZERO: &[u8] = b"\x0B\x00\x01\x00mirred\x00\x00";

/// The same kind with no zero: the two bytes behind it are padding.
pub const WITHOUT_ZERO: &[u8] = b"\x0A\x00\x01\x00mirred\x00\x00";

/// The entry, with its kind spelt so.
pub fn entry(heap: Global, kind: &[u8]) -> Result<Vec<u8>, AllocError>
    ensures { IfOk result (λ v. v.items ≡ before_kind ++ (kind.now ++ behind_kind)) }
{
    let mut filter = Vec::new(heap);
    filter.extend_from_slice(CLASS)?;
    filter.extend_from_slice(SELECTOR)?;
    filter.extend_from_slice(ACTION)?;
    filter.extend_from_slice(kind)?;
    filter.extend_from_slice(OPTIONS)?;
    Ok(filter)
}
