// What is wrong with a line that is none of a script.
ghost use Rattle.std.specs.Prelude.{◌≡◌};
ghost use Rattle.script.specs.Wrongs.{behind_with};

use thiserror::Error;

/// What is wrong with a line that is none of a script.
#[derive(Clone, Copy, PartialEq, Eq, Debug, Error)]
pub enum Wrong {
    /// Its first word begins no line.
    #[error("no line of a script begins with this word")]
    Word,
    /// `new` without its number.
    #[error("new wants a number of bytes")]
    New,
    /// `put` without its word or its payload.
    #[error("put wants a word and a payload in hexadecimal")]
    Put,
    /// `open` without its type.
    #[error("open wants a type")]
    Open,
    /// `with` without its number, or without a call.
    #[error("with wants a number of bytes and a call")]
    With,
    /// Something stands behind a word that stands alone.
    #[error("close, strike, read and bytes stand alone")]
    Alone,
    /// No memory was found for the payload.
    #[error("no memory was found for the payload")]
    NoMemory,
}

impl Wrong {
    /// What is wrong with a line of `with` whose call is wrong: a call that is none is missed.
    pub(crate) fn behind_with(self) -> Wrong
        ensures { result ≡ behind_with self }
    {
        match self {
            Wrong::Word => Wrong::With,
            wrong => wrong,
        }
    }
}
