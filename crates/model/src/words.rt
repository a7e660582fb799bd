// Causes and layers in words, for a person.
use crate::fault::{Cause, Layer};
use std::fmt;

impl fmt::Display for Cause {
    fn fmt<W: fmt::Write>(&self, f: &mut fmt::Formatter<W>) -> fmt::Result {
        f.write_str(match self {
            Cause::TooLong => "there are more than 65,531 bytes",
            Cause::OtherMemory => "the page's memory has another length than at its making",
            Cause::TypeTooLarge => "a nest is opened with a type above 16,383",
            Cause::NotAtThisLevel =>
                "the call, or its type, does not belong at this level of the page",
            Cause::NoOpenNest => "no nest is open",
            Cause::HeadCutOff => "fewer than 4 bytes remain where an attribute must begin",
            Cause::LengthBeyondEnd => "the length field exceeds the bytes remaining",
            Cause::LengthBelowHead => "the length field is below 4",
            Cause::KindNotUtf8 => "the kind text is not UTF-8",
            Cause::NoKind => "the action has no kind",
            Cause::SeveralKinds => "the action has more than one kind",
            Cause::WrongLength => "the payload has not the length wanted",
            Cause::TooShort => "the payload is shorter than its record or selector",
            Cause::RefusedByBook => "the book refuses the action option",
            Cause::PayloadTooLong => "a written-out payload has more than 65,531 bytes",
            Cause::NoRoom => "there are fewer bytes free than needed",
        })
    }
}

impl fmt::Display for Layer {
    fn fmt<W: fmt::Write>(&self, f: &mut fmt::Formatter<W>) -> fmt::Result {
        f.write_str(match self {
            Layer::FilterOption => "filter option",
            Layer::Action => "action",
            Layer::ActionAttribute => "action attribute",
            Layer::ActionOption => "action option",
        })
    }
}
