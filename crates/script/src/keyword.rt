// The words that begin a line.
ghost use Rattle.std.specs.Prelude.{◌≡◌};
ghost use Rattle.std.specs.Str.{bytes_eq};
ghost use Rattle.script.specs.Keywords.{keyword_of};

/// A word that begins a line, or a call.
#[derive(Clone, Copy)]
pub enum Keyword {
    /// A new page.
    New,
    /// The call put.
    Put,
    /// The call open.
    Open,
    /// The call close.
    Close,
    /// The call strike.
    Strike,
    /// A call with other memory.
    With,
    /// The reading of the page.
    Read,
    /// The bytes of the page.
    Bytes,
}

impl Keyword {
    /// The keyword that a word is.
    pub fn named(word: &[u8]) -> Option<Keyword>
        ensures { result ≡ keyword_of word.now }
    {
        match word {
            b"new" => Some(Keyword::New),
            b"put" => Some(Keyword::Put),
            b"open" => Some(Keyword::Open),
            b"close" => Some(Keyword::Close),
            b"strike" => Some(Keyword::Strike),
            b"with" => Some(Keyword::With),
            b"read" => Some(Keyword::Read),
            b"bytes" => Some(Keyword::Bytes),
            _ => None,
        }
    }
}
