// The options of an action that has its times, its parameters, and no others.
use shown::attribute::AsItStands;
use shown::record::Times;
use std::fmt;
use std::fmt::Display;
use tc_options::parms::TcActionParmsOption;

/// The parameters of an action, as text for people.
pub trait Parameters: Copy {
    fn show<W: fmt::Write>(&self, f: &mut fmt::Formatter<W>) -> fmt::Result;
}

/// An option of such an action.
#[derive(Clone, Copy)]
pub struct ParmsOption<'a, P>(pub TcActionParmsOption<'a, P>);

impl<'a, P: Parameters> fmt::Display for ParmsOption<'a, P> {
    fn fmt<W: fmt::Write>(&self, f: &mut fmt::Formatter<W>) -> fmt::Result {
        match self.0 {
            TcActionParmsOption::Tm(times) => Times(times).fmt(f),
            TcActionParmsOption::Parms(parameters) => parameters.show(f),
            TcActionParmsOption::Other(attribute) => AsItStands(attribute).fmt(f),
        }
    }
}
