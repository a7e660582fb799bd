// Writing an attribute at the front of the output.
ghost use Rattle.std.specs.Prelude.{◌≡◌, ◌≤◌, length};
ghost use Rattle.model.specs.Attributes.{attribute, encode};
ghost use Rattle.filter.specs.Writes.{at_front};

use netlink::nla::Nla;
use netlink::traits::Emitable;

/// Writes an attribute that goes in by the one writer, and answers how many bytes that took.
pub(crate) fn write_nla<T: Nla>(nla: &T, output: &mut [u8]) -> usize
    requires short { length (T.Nla.payload nla.now) ≤ 65531 }
    requires room { length (encode (attribute (T.Nla.word nla.now) (T.Nla.payload nla.now))) ≤ length output.old }
    ensures value { result ≡ length (encode (attribute (T.Nla.word nla.now) (T.Nla.payload nla.now))) }
    ensures after { output.new ≡ at_front output.old (encode (attribute (T.Nla.word nla.now) (T.Nla.payload nla.now))) }
{
    nla.emit(output).unwrap_or(0)
}
