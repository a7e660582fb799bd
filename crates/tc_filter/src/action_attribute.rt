// The attributes of an action.
ghost use Rattle.std.specs.Prelude.{◌≡◌, ℕ, List, IfOk};
ghost use Rattle.model.specs.Book.{Meaning};
ghost use Rattle.model.specs.Reading.{read_attribute};
ghost use Rattle.tc_filter.specs.ActionAttributes.{attribute_reads, PartOf};

use netlink::buffer::NlaBuffer;
use netlink::default_nla::DefaultNla;
use payload::error::DecodeError;
use payload::parsers::parse;
use payload::text::parse_string;

/// The type of a kind.
pub const TCA_ACT_KIND: u16 = 1;

/// The type of an action's options.
pub const TCA_ACT_OPTIONS: u16 = 2;

/// The type of an action's number.
pub const TCA_ACT_INDEX: u16 = 3;

/// The type of statistics.
pub const TCA_ACT_STATS: u16 = 4;

/// The type of a cookie.
pub const TCA_ACT_COOKIE: u16 = 6;

/// The type of a count of hardware.
pub const TCA_ACT_IN_HW_COUNT: u16 = 10;

/// An attribute of an action. What is not a number is a part of the filter.
#[derive(Clone, Copy)]
pub enum TcActionAttribute<'a> {
    /// The kind of the action, as `mirred`, without the zero after it.
    Kind(&'a str),
    /// The action's options: an attribute whose payload is a list of them.
    Options(NlaBuffer<'a>),
    /// The number of the action among those of its kind.
    Index(u32),
    /// Statistics, as they stand.
    Stats(&'a [u8]),
    /// A cookie, as it stands.
    Cookie(&'a [u8]),
    /// How often the action is installed in hardware.
    InHwCount(u32),
    /// An attribute of any other type.
    Other(DefaultNla<'a>),
}

impl<'a> TcActionAttribute<'a> {
    /// Reads an attribute, as far as no book is asked: a list of options is handed out as it stands.
    pub fn parse(buf: &NlaBuffer<'a>) -> Result<TcActionAttribute<'a>, DecodeError>
        ensures reads { (m : Meaning) (k : List ℕ) → attribute_reads m k buf.now.place result ≡ read_attribute m k buf.now.place buf.now.word buf.now.value.now }
        ensures part { IfOk result (PartOf buf.now) }
    {
        match buf.kind() {
            TCA_ACT_KIND => Ok(TcActionAttribute::Kind(parse_string(buf.value)?)),
            TCA_ACT_OPTIONS => Ok(TcActionAttribute::Options(*buf)),
            TCA_ACT_INDEX => Ok(TcActionAttribute::Index(parse::<u32, 4>(buf.value)?)),
            TCA_ACT_STATS => Ok(TcActionAttribute::Stats(buf.value)),
            TCA_ACT_COOKIE => Ok(TcActionAttribute::Cookie(buf.value)),
            TCA_ACT_IN_HW_COUNT => Ok(TcActionAttribute::InHwCount(parse::<u32, 4>(buf.value)?)),
            _ => Ok(TcActionAttribute::Other(DefaultNla::from(*buf))),
        }
    }
}
