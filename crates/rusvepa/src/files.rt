// Why a file gave no answer.
use hexadecimal::decoding::HexError;
use model::fault::Fault;
use std::alloc::AllocError;
use std::io;
use thiserror::Error;
use wording::fault::Sentence;

/// Why a file gave no answer.
#[derive(Debug, Drop, Error)]
pub(crate) enum Trouble {
    /// The file cannot be read.
    #[error("it cannot be read: {0}")]
    Unread(#[from] io::Error),
    /// A file of hexadecimal text has another character than a digit, or an odd number of digits.
    #[error("it is not hexadecimal: a character is no digit, or the number of digits is odd")]
    NotHex,
    /// The filter is refused.
    #[error("{}", Sentence(*.0))]
    Refused(#[from] Fault),
}

// By hand here and below: memory that is not found is told as a file that is not read.
impl From<AllocError> for Trouble {
    fn from(error: AllocError) -> Trouble {
        Trouble::Unread(error.into())
    }
}

impl From<HexError> for Trouble {
    fn from(error: HexError) -> Trouble {
        match error {
            HexError::NotHex => Trouble::NotHex,
            HexError::NoMemory => AllocError.into(),
        }
    }
}
