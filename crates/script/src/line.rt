// The lines of a script.
ghost use Rattle.std.specs.Prelude.{◌≡◌};
ghost use Rattle.script.specs.Lines.{asked, Asks, Puts, Tells, alone};
ghost use Rattle.page.specs.Calls.{meant};

use crate::keyword::Keyword;
use crate::number::{number, short};
use crate::words::{behind_word, first_word};
use crate::wrong::Wrong;
use hexadecimal::decoding::{HexError, decode};
use hexadecimal::plain_text::trimmed;
use page::call::Call;
use std::alloc::Global;

// No `page::call::Call`, which borrows its payload: a line has it in hexadecimal, so its bytes are held here.
/// A call as a line tells it, with the payload's bytes.
#[derive(Drop)]
pub enum Told {
    /// Put, with a word and a payload.
    Put(u16, Vec<u8>),
    /// Open, with a type.
    Open(u16),
    /// Close.
    Close,
    /// Strike.
    Strike,
}

/// A line of a script.
#[derive(Drop)]
pub enum Line {
    /// A page is made, for memory of so many bytes.
    New(u32),
    /// A call with the page's memory.
    Call(Told),
    /// A call with memory of so many bytes in its place.
    With(u32, Told),
    /// The page's bytes are read.
    Read,
    /// The page's bytes are told.
    Bytes,
    /// A blank line, or a remark.
    Nothing,
}

impl Told {
    /// The page's call.
    pub fn call(&self) -> Call<'_>
        ensures { meant result ≡ asked self.now }
    {
        match self {
            Told::Put(word, payload) => Call::Put(*word, payload.as_slice()),
            Told::Open(kind) => Call::Open(*kind),
            Told::Close => Call::Close,
            Told::Strike => Call::Strike,
        }
    }

    /// What stands behind `put`: a word and a payload, which is `-` where it is empty.
    fn put(heap: Global, text: &[u8]) -> Result<Told, Wrong>
        ensures { Puts text.now result }
    {
        let word = short(first_word(text)).ok_or(Wrong::Put)?;
        let mut payload = Vec::new(heap);
        match behind_word(text) {
            [] => Err(Wrong::Put),
            [b'-'] => Ok(Told::Put(word, payload)),
            digits => match decode(digits, &mut payload) {
                Ok(()) => Ok(Told::Put(word, payload)),
                Err(HexError::NotHex) => Err(Wrong::Put),
                Err(HexError::NoMemory) => Err(Wrong::NoMemory),
            },
        }
    }

    /// The call that a text tells.
    fn read(heap: Global, text: &[u8]) -> Result<Told, Wrong>
        ensures { Asks text.now result }
    {
        let more = behind_word(text);
        match Keyword::named(first_word(text)) {
            Some(Keyword::Put) => Told::put(heap, more),
            Some(Keyword::Open) => match short(more) {
                Some(kind) => Ok(Told::Open(kind)),
                None => Err(Wrong::Open),
            },
            Some(Keyword::Close) if more.is_empty() => Ok(Told::Close),
            Some(Keyword::Strike) if more.is_empty() => Ok(Told::Strike),
            Some(Keyword::Close | Keyword::Strike) => Err(Wrong::Alone),
            _ => Err(Wrong::Word),
        }
    }
}

impl Line {
    /// The line that a text is; or what is wrong with it.
    pub fn read(heap: Global, text: &[u8]) -> Result<Line, Wrong>
        ensures { Tells text.now result }
    {
        let text = trimmed(text);
        if matches!(text, [] | [b'#', ..]) {
            return Ok(Line::Nothing);
        }
        let more = behind_word(text);
        match Keyword::named(first_word(text)) {
            Some(Keyword::New) => match number(more) {
                Some(size) => Ok(Line::New(size)),
                None => Err(Wrong::New),
            },
            Some(Keyword::With) => {
                let size = number(first_word(more)).ok_or(Wrong::With)?;
                match Told::read(heap, behind_word(more)) {
                    Ok(told) => Ok(Line::With(size, told)),
                    Err(wrong) => Err(wrong.behind_with()),
                }
            }
            Some(Keyword::Read) if more.is_empty() => Ok(Line::Read),
            Some(Keyword::Bytes) if more.is_empty() => Ok(Line::Bytes),
            Some(Keyword::Read | Keyword::Bytes) => Err(Wrong::Alone),
            _ => Ok(Line::Call(Told::read(heap, text)?)),
        }
    }
}
