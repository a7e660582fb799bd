// A fault as a sentence, and by its five numbers.
use model::fault::{Cause, Fault};
use std::fmt;

/// The five numbers of a fault: cause, place, layer, need and the book's number.
#[derive(Clone, Copy)]
pub struct Numbers(pub Fault);

impl fmt::Display for Numbers {
    fn fmt<W: fmt::Write>(&self, f: &mut fmt::Formatter<W>) -> fmt::Result {
        let Fault {
            cause,
            place,
            layer,
            need,
            number,
        } = self.0;
        let cause = u8::from(cause);
        let layer = u8::from(layer);
        write!(f, "fault {cause} {place} {layer} {need} {number}")
    }
}

/// How many bytes are wanted.
#[derive(Clone, Copy)]
struct Wanted(usize);

impl fmt::Display for Wanted {
    fn fmt<W: fmt::Write>(&self, f: &mut fmt::Formatter<W>) -> fmt::Result {
        match self.0 {
            1 => f.write_str("1 byte is wanted"),
            need => write!(f, "{need} bytes are wanted"),
        }
    }
}

/// What a fault says beside its cause: the length wanted, or the book's number.
#[derive(Clone, Copy)]
struct Details(Fault);

impl fmt::Display for Details {
    fn fmt<W: fmt::Write>(&self, f: &mut fmt::Formatter<W>) -> fmt::Result {
        let number = self.0.number;
        let wanted = Wanted(self.0.need);
        match self.0.cause {
            Cause::WrongLength | Cause::TooShort => write!(f, "; {wanted}"),
            Cause::RefusedByBook if self.0.need == 0 => write!(f, "; its number is {number}"),
            Cause::RefusedByBook => write!(f, "; its number is {number}, and {wanted}"),
            _ => Ok(()),
        }
    }
}

/// A fault for a person: where it is, what is wrong, what was wanted, and the five numbers.
#[derive(Clone, Copy)]
pub struct Sentence(pub Fault);

impl fmt::Display for Sentence {
    fn fmt<W: fmt::Write>(&self, f: &mut fmt::Formatter<W>) -> fmt::Result {
        let place = self.0.place;
        let layer = self.0.layer;
        let cause = self.0.cause;
        let details = Details(self.0);
        let numbers = Numbers(self.0);
        write!(f, "byte {place}, {layer}: {cause}{details} ({numbers})")
    }
}
