// What is written of an option or an attribute: the whole of it, or what stands around a row of attributes.
ghost use Rattle.std.specs.Prelude.{◌≡◌};
ghost use Rattle.tc_filter.specs.Leaves.{content_meant, attribute_content, option_content};

use crate::action_attribute::{
    TCA_ACT_COOKIE, TCA_ACT_IN_HW_COUNT, TCA_ACT_INDEX, TCA_ACT_STATS, TcActionAttribute,
};
use crate::cls_u32::{
    TCA_U32_CLASSID, TCA_U32_DIVISOR, TCA_U32_FLAGS, TCA_U32_HASH, TCA_U32_INDEV, TCA_U32_LINK,
    TCA_U32_MARK, TCA_U32_PCNT, TCA_U32_POLICE, TcFilterU32Option,
};
use crate::leaf::Leaf;
use netlink::buffer::NlaBuffer;
use netlink::default_nla::DefaultNla;

// Whoever reads, measures or writes matches on the two cases: they are what there is, and no step to choose.
/// What an option or an attribute holds.
#[derive(Clone, Copy)]
pub enum Content<'a> {
    /// No attributes: it is written as this.
    Leaf(Leaf<'a>),
    /// A row of attributes, which are read and written one by one.
    Nest(NlaBuffer<'a>),
}

/// Bytes under a type.
fn bytes<'a>(word: u16, value: &'a [u8]) -> Content<'a>
    ensures { result ≡ Content.Leaf (Leaf.Bytes (record { word = word; value = value.entry })) }
{
    Content::Leaf(Leaf::Bytes(DefaultNla { word, value }))
}

/// What an attribute of an action is written as.
pub fn attribute_content<'a>(attribute: TcActionAttribute<'a>) -> Content<'a>
    ensures { content_meant result ≡ attribute_content attribute.entry }
{
    match attribute {
        TcActionAttribute::Kind(text) => Content::Leaf(Leaf::Kind(text)),
        TcActionAttribute::Options(nest) => Content::Nest(nest),
        TcActionAttribute::Index(number) => Content::Leaf(Leaf::Number(TCA_ACT_INDEX, number)),
        TcActionAttribute::Stats(value) => bytes(TCA_ACT_STATS, value),
        TcActionAttribute::Cookie(value) => bytes(TCA_ACT_COOKIE, value),
        TcActionAttribute::InHwCount(number) => Content::Leaf(Leaf::Number(
            TCA_ACT_IN_HW_COUNT,
            number,
        )),
        TcActionAttribute::Other(nla) => Content::Leaf(Leaf::Bytes(nla)),
    }
}

/// What an option of a filter is written as.
pub fn option_content<'a>(option: TcFilterU32Option<'a>) -> Content<'a>
    ensures { content_meant result ≡ option_content option.entry }
{
    match option {
        TcFilterU32Option::ClassId(handle) => Content::Leaf(Leaf::Number(
            TCA_U32_CLASSID,
            u32::from(handle),
        )),
        TcFilterU32Option::Hash(number) => Content::Leaf(Leaf::Number(TCA_U32_HASH, number)),
        TcFilterU32Option::Link(number) => Content::Leaf(Leaf::Number(TCA_U32_LINK, number)),
        TcFilterU32Option::Divisor(number) => Content::Leaf(Leaf::Number(TCA_U32_DIVISOR, number)),
        TcFilterU32Option::Selector(selector) => Content::Leaf(Leaf::Selector(selector)),
        TcFilterU32Option::Police(value) => bytes(TCA_U32_POLICE, value),
        TcFilterU32Option::Action(nest) => Content::Nest(nest),
        TcFilterU32Option::Indev(value) => bytes(TCA_U32_INDEV, value),
        TcFilterU32Option::Pnct(value) => bytes(TCA_U32_PCNT, value),
        TcFilterU32Option::Mark(value) => bytes(TCA_U32_MARK, value),
        TcFilterU32Option::Flags(number) => Content::Leaf(Leaf::Number(TCA_U32_FLAGS, number)),
        TcFilterU32Option::Other(nla) => Content::Leaf(Leaf::Bytes(nla)),
    }
}
