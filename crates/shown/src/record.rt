// What every action has: the common head of its parameters, and its times.
use std::fmt;
use tc_records::action::{TcActionGeneric, Tcf};

/// The common head of an action's parameters.
#[derive(Clone, Copy)]
pub struct Head(pub TcActionGeneric);

impl fmt::Display for Head {
    fn fmt<W: fmt::Write>(&self, f: &mut fmt::Formatter<W>) -> fmt::Result {
        let TcActionGeneric {
            index,
            capab,
            action,
            refcnt,
            bindcnt,
        } = self.0;
        write!(
            f,
            "outcome {action:?}, index {index}, capab {capab}, refcnt {refcnt}, bindcnt {bindcnt}"
        )
    }
}

/// When an action was installed and used.
#[derive(Clone, Copy)]
pub struct Times(pub Tcf);

impl fmt::Display for Times {
    fn fmt<W: fmt::Write>(&self, f: &mut fmt::Formatter<W>) -> fmt::Result {
        let Tcf {
            install,
            lastuse,
            expires,
            firstuse,
        } = self.0;
        write!(
            f,
            "times install {install}, lastuse {lastuse}, expires {expires}, firstuse {firstuse}"
        )
    }
}
