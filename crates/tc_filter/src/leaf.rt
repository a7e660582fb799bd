// Attributes with no attributes inside, as they are written.
ghost use Rattle.std.specs.Prelude.{◌≡◌, [], ◌∷◌, ◌++◌, length, if◌then◌else◌, ◌==◌, nat_eq};
ghost use Rattle.tc_records.specs.Selectors.{selector_form};
ghost use Rattle.tc_filter.specs.Leaves.{leaf_word, leaf_payload};

use crate::action_attribute::TCA_ACT_KIND;
use crate::cls_u32::TCA_U32_SEL;
use netlink::default_nla::DefaultNla;
use netlink::nla::Nla;
use netlink::overwrite::fill;
use tc_records::selector::TcU32Selector;

/// An attribute with no attributes inside, as it is written.
#[derive(Clone, Copy)]
pub enum Leaf<'a> {
    /// A word, and a number of four bytes.
    Number(u16, u32),
    /// A kind text, which is written with one zero after it.
    Kind(&'a str),
    /// A selector.
    Selector(TcU32Selector<'a>),
    /// A word, and bytes that are written as they stand.
    Bytes(DefaultNla<'a>),
}

// A `bool`, as `emit_value` answers.
/// Writes a text and one zero into a buffer of just their length.
fn fill_text(buffer: &mut [u8], text: &str) -> bool
    ensures value { result ≡ (length (text.now ++ 0 ∷ []) == length buffer.old) }
    ensures after { buffer.new ≡ (if nat_eq (length (text.now ++ 0 ∷ [])) (length buffer.old) then text.now ++ 0 ∷ [] else buffer.old) }
{
    let end = text.len();
    let whole = end + 1 == buffer.len();
    if whole {
        buffer[..end].copy_from_slice(text.as_bytes());
        buffer[end] = 0;
    }
    whole
}

impl<'a> Nla for Leaf<'a> {
    ghost word = { leaf_word };

    ghost payload = { leaf_payload };

    fn value_len(&self) -> usize {
        match self {
            Leaf::Number(_, _) => 4,
            Leaf::Kind(text) => text.len() + 1,
            Leaf::Selector(selector) => selector.buffer_len(),
            Leaf::Bytes(nla) => nla.value_len(),
        }
    }

    fn kind(&self) -> u16 {
        match self {
            Leaf::Number(word, _) => *word,
            Leaf::Kind(_) => TCA_ACT_KIND,
            Leaf::Selector(_) => TCA_U32_SEL,
            Leaf::Bytes(nla) => nla.kind(),
        }
    }

    fn emit_value(&self, buffer: &mut [u8]) -> bool {
        match self {
            Leaf::Number(_, number) => fill(buffer, &number.to_le_bytes()),
            Leaf::Kind(text) => fill_text(buffer, text),
            Leaf::Selector(selector) => {
                selector.buffer_len() == buffer.len() && selector.emit(buffer).is_ok()
            }
            Leaf::Bytes(nla) => nla.emit_value(buffer),
        }
    }
}
