// Why a call is refused, and where: the sixteen causes, the four layers, and the fault that carries them.
ghost use Rattle.std.specs.Prelude.{◌≡◌};
ghost use Rattle.model.specs.Faults.{cause_number, layer_number};

/// Why something is not accepted. The causes stand in the order of their numbers, in which a page call checks them.
#[derive(Clone, Copy, PartialEq, Eq, Debug)]
pub enum Cause {
    /// A filter, or the memory of a new page, has more than 65,531 bytes.
    TooLong = 1,
    /// The page's memory has another length than at its making.
    OtherMemory = 2,
    /// A nest is opened with a type above 16,383.
    TypeTooLarge = 3,
    /// A put or an open, or its type, does not belong at this level of the page.
    NotAtThisLevel = 4,
    /// Close or strike finds no nest open.
    NoOpenNest = 5,
    /// Fewer than 4 bytes remain where an attribute must begin.
    HeadCutOff = 6,
    /// An attribute's length field exceeds the bytes remaining.
    LengthBeyondEnd = 7,
    /// An attribute's length field is below 4.
    LengthBelowHead = 8,
    /// A kind text is not UTF-8.
    KindNotUtf8 = 9,
    /// An action has no kind.
    NoKind = 10,
    /// An action has more than one kind.
    SeveralKinds = 11,
    /// A payload has not the exact length wanted.
    WrongLength = 12,
    /// A payload is shorter than its record or selector.
    TooShort = 13,
    /// The book refuses an action option.
    RefusedByBook = 14,
    /// A written-out payload has more than 65,531 bytes.
    PayloadTooLong = 15,
    /// The output or the page has fewer bytes free than the call needs.
    NoRoom = 16,
}

/// The cause's number, from 1 to 16.
impl From<Cause> for u8 {
    ghost from_gives = { λ c r. r ≡ cause_number c };

    fn from(cause: Cause) -> u8 {
        cause as u8
    }
}

/// In which kind of attribute a fault lies.
#[derive(Clone, Copy, PartialEq, Eq, Debug)]
pub enum Layer {
    FilterOption = 1,
    Action = 2,
    ActionAttribute = 3,
    ActionOption = 4,
}

/// The layer's number, from 1 to 4.
impl From<Layer> for u8 {
    ghost from_gives = { λ l r. r ≡ layer_number l };

    fn from(layer: Layer) -> u8 {
        layer as u8
    }
}

/// What is refused, and where.
#[derive(Clone, Copy, PartialEq, Eq, Debug)]
pub struct Fault {
    pub cause: Cause,
    /// The place of the attribute concerned, in bytes from the start of the filter or page.
    pub place: usize,
    pub layer: Layer,
    /// The payload length wanted, or the book's figure; else 0.
    pub need: usize,
    /// The number of the book's refusal; else 0.
    pub number: u8,
}

impl Fault {
    /// A fault with no need and no number of a book's.
    pub fn new(cause: Cause, place: usize, layer: Layer) -> Fault
        ensures { result ≡ record { cause = cause; place = place; layer = layer; need = 0; number = 0 } }
    {
        Fault {
            cause,
            place,
            layer,
            need: 0,
            number: 0,
        }
    }
}
