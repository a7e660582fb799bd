// What goes by a name.
use std::fmt;

/// A name, and what goes by it.
#[derive(Clone, Copy)]
pub struct Named<'a, V>(pub &'a str, pub V);

impl<'a, V: fmt::Display> fmt::Display for Named<'a, V> {
    fn fmt<W: fmt::Write>(&self, f: &mut fmt::Formatter<W>) -> fmt::Result {
        let Named(name, value) = self;
        write!(f, "{name} {value}")
    }
}
