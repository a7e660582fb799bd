// An option of an action, by the action's kind.
use crate::parms::ParmsOption;
use crate::tunnel_key::TunnelKeyOption;
use shown::attribute::AsItStands;
use std::fmt;
use std::fmt::Display;
use tc_options::option::TcActionOption;

/// An option of an action, as text for people.
#[derive(Clone, Copy)]
pub struct ActionOption<'a>(pub TcActionOption<'a>);

impl<'a> fmt::Display for ActionOption<'a> {
    fn fmt<W: fmt::Write>(&self, f: &mut fmt::Formatter<W>) -> fmt::Result {
        match self.0 {
            TcActionOption::Mirror(option) => ParmsOption(option).fmt(f),
            TcActionOption::Nat(option) => ParmsOption(option).fmt(f),
            TcActionOption::TunnelKey(option) => TunnelKeyOption(option).fmt(f),
            TcActionOption::Other(attribute) => AsItStands(attribute).fmt(f),
        }
    }
}
