// Why a step of a draw, or a protocol, is refused: one enum for all of them, each case with the number and the place
// that are printed.
#![tactic(auto)]

ghost use Rattle.std.specs.Prelude.{◌≡◌, Some};
ghost use Rattle.refusals.specs.Numbered.{number, place, refused_words};

use std::fmt;

// What a draw cannot be closed without, in the order of their numbers from 0.
#[derive(Clone, Copy, Debug, PartialEq, Eq)]
pub enum Missing {
    Entry,
    Seal,
    Opening,
}

// The lent slices, in the order of their numbers from 0.
#[derive(Clone, Copy, Debug, PartialEq, Eq)]
pub enum Lent {
    List,
    Seals,
    Bits,
    Order,
}

#[derive(Clone, Copy, Debug, PartialEq, Eq)]
pub enum Refusal {
    // an entry with no byte or more than 64: its length
    NameLength(usize),
    // an entry that is there already, or one more than the list may hold
    NameTaken,
    // a step at the wrong time, or of an unknown kind
    WrongTime,
    // the number of bytes that each party puts in is out of range
    BitsLength,
    // a seal that is not 32 bytes long: its length
    SealLength(usize),
    // the 256th seal
    TooManySeals,
    // an opening of a party that does not exist or has opened: the party
    NoSuchParty(u8),
    // an opening of the wrong length: its length
    OpeningLength(usize),
    // an opening that does not give the seal: the party
    WrongOpening(u8),
    // closing without an entry, a seal or an opening: which
    Nothing(Missing),
    // a lent slice is too short: which
    NoRoom(Lent),
    // a protocol that ends too early: its length; or that goes on: the place of the first byte too many
    ProtocolLength(usize),
    // a count, a length, a name or a byte that tells whether a party opened is out of range, or a name is not above the
    // one before it: the place of its first byte
    OutOfRange(usize),
    // an opening that does not give its seal: the party
    BadOpening(u8),
    // a protocol in which none opened
    NoneOpened,
    // the order, or the word whether there is one, is not the one drawn: the place of its first byte
    WrongOrder(usize),
}

impl Refusal {
    pub fn number(self) -> u8
        ensures { result ≡ number self }
    {
        match self {
            Refusal::NameLength(_) => 1,
            Refusal::NameTaken => 2,
            Refusal::WrongTime => 3,
            Refusal::BitsLength => 4,
            Refusal::SealLength(_) | Refusal::TooManySeals => 5,
            Refusal::NoSuchParty(_) => 6,
            Refusal::OpeningLength(_) => 7,
            Refusal::WrongOpening(_) => 8,
            Refusal::Nothing(_) => 9,
            Refusal::NoRoom(_) => 10,
            Refusal::ProtocolLength(_) => 11,
            Refusal::OutOfRange(_) => 12,
            Refusal::BadOpening(_) | Refusal::NoneOpened => 13,
            Refusal::WrongOrder(_) => 14,
        }
    }

    pub fn place(self) -> usize
        ensures { result ≡ place self }
    {
        match self {
            Refusal::NameTaken | Refusal::WrongTime | Refusal::BitsLength => 0,
            Refusal::TooManySeals | Refusal::NoneOpened => 255,
            Refusal::NameLength(n) | Refusal::SealLength(n) | Refusal::OpeningLength(n) => n,
            Refusal::ProtocolLength(at) | Refusal::OutOfRange(at) | Refusal::WrongOrder(at) => at,
            Refusal::NoSuchParty(p) | Refusal::WrongOpening(p) | Refusal::BadOpening(p) =>
                p as usize,
            Refusal::Nothing(what) => what as usize,
            Refusal::NoRoom(what) => what as usize,
        }
    }
}

impl fmt::Display for Refusal {
    ghost output = { λ why. Some (refused_words why) };

    fn fmt<W: fmt::Write>(&self, f: &mut fmt::Formatter<W>) -> fmt::Result {
        write!(f, "refused {} at {}", self.number(), self.place())
    }
}
