// The options of a u32 filter.
ghost use Rattle.std.specs.Prelude.{◌≡◌, IfOk};
ghost use Rattle.model.specs.Book.{Meaning};
ghost use Rattle.model.specs.Reading.{read_option};
ghost use Rattle.tc_filter.specs.FilterOptions.{option_reads, PartOf};

use netlink::buffer::NlaBuffer;
use netlink::default_nla::DefaultNla;
use payload::error::DecodeError;
use payload::parsers::parse;
use tc_records::header::TcHandle;
use tc_records::selector::TcU32Selector;

/// The type of a class.
pub const TCA_U32_CLASSID: u16 = 1;

/// The type of a hash table.
pub const TCA_U32_HASH: u16 = 2;

/// The type of a link to a hash table.
pub const TCA_U32_LINK: u16 = 3;

/// The type of a divisor.
pub const TCA_U32_DIVISOR: u16 = 4;

/// The type of a selector.
pub const TCA_U32_SEL: u16 = 5;

/// The type of a rate limit.
pub const TCA_U32_POLICE: u16 = 6;

/// The type of a list of actions.
pub const TCA_U32_ACT: u16 = 7;

/// The type of an interface.
pub const TCA_U32_INDEV: u16 = 8;

/// The type of counters.
pub const TCA_U32_PCNT: u16 = 9;

/// The type of a mark.
pub const TCA_U32_MARK: u16 = 10;

/// The type of flags.
pub const TCA_U32_FLAGS: u16 = 11;

/// An option of a filter. What is not a number is a part of the filter.
#[derive(Clone, Copy)]
pub enum TcFilterU32Option<'a> {
    /// The class that matching packets belong to.
    ClassId(TcHandle),
    /// The hash table that the filter stands in.
    Hash(u32),
    /// The hash table that matching packets are looked up in next.
    Link(u32),
    /// The size of a hash table.
    Divisor(u32),
    /// Which packets match.
    Selector(TcU32Selector<'a>),
    /// A rate limit, as it stands.
    Police(&'a [u8]),
    /// What is done with matching packets: an attribute whose payload is a list of actions.
    Action(NlaBuffer<'a>),
    /// The interface that packets come in by, as it stands.
    Indev(&'a [u8]),
    /// Counters, as they stand.
    Pnct(&'a [u8]),
    /// A mark to match, as it stands.
    Mark(&'a [u8]),
    /// Flags, kept whole.
    Flags(u32),
    /// An option of any other type.
    Other(DefaultNla<'a>),
}

impl<'a> TcFilterU32Option<'a> {
    /// Reads an option, as far as no book is asked: a list of actions is handed out as it stands.
    pub fn parse(buf: &NlaBuffer<'a>) -> Result<TcFilterU32Option<'a>, DecodeError>
        ensures reads { (m : Meaning) → option_reads m buf.now.place result ≡ read_option m buf.now.place buf.now.word buf.now.value.now }
        ensures part { IfOk result (PartOf buf.now) }
    {
        match buf.kind() {
            TCA_U32_CLASSID => Ok(TcFilterU32Option::ClassId(TcHandle::from(parse::<u32, 4>(
                buf.value,
            )?))),
            TCA_U32_HASH => Ok(TcFilterU32Option::Hash(parse::<u32, 4>(buf.value)?)),
            TCA_U32_LINK => Ok(TcFilterU32Option::Link(parse::<u32, 4>(buf.value)?)),
            TCA_U32_DIVISOR => Ok(TcFilterU32Option::Divisor(parse::<u32, 4>(buf.value)?)),
            TCA_U32_SEL => Ok(TcFilterU32Option::Selector(TcU32Selector::parse(buf.value)?)),
            TCA_U32_POLICE => Ok(TcFilterU32Option::Police(buf.value)),
            TCA_U32_ACT => Ok(TcFilterU32Option::Action(*buf)),
            TCA_U32_INDEV => Ok(TcFilterU32Option::Indev(buf.value)),
            TCA_U32_PCNT => Ok(TcFilterU32Option::Pnct(buf.value)),
            TCA_U32_MARK => Ok(TcFilterU32Option::Mark(buf.value)),
            TCA_U32_FLAGS => Ok(TcFilterU32Option::Flags(parse::<u32, 4>(buf.value)?)),
            _ => Ok(TcFilterU32Option::Other(DefaultNla::from(*buf))),
        }
    }
}
