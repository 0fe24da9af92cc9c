// The kinds of steps, and the byte that stands for each in a file.
ghost use Rattle.std.specs.Prelude.{◌≡◌, ◌++◌, Some, codes, decimal};
ghost use Rattle.step_file.specs.Kinds.{IsKindOf, kind_number};

use std::error::Error;
use std::fmt;

#[derive(Clone, Copy, Debug, PartialEq, Eq)]
pub enum Kind {
    Entry = 1,
    CloseList,
    Seal,
    CloseSeals,
    Opening,
    Close,
}

// No kind of step has this number.
#[derive(Clone, Copy, Debug, PartialEq, Eq)]
pub struct UnknownKind(pub u8);

impl TryFrom<u8> for Kind {
    type Error = UnknownKind;

    ghost try_from_gives = { IsKindOf };

    fn try_from(number: u8) -> Result<Self, UnknownKind> {
        match number {
            1 => Ok(Kind::Entry),
            2 => Ok(Kind::CloseList),
            3 => Ok(Kind::Seal),
            4 => Ok(Kind::CloseSeals),
            5 => Ok(Kind::Opening),
            6 => Ok(Kind::Close),
            _ => Err(UnknownKind(number)),
        }
    }
}

impl From<Kind> for u8 {
    ghost from_gives = { λ kind number. number ≡ kind_number kind };

    fn from(kind: Kind) -> u8 {
        kind as u8
    }
}

impl fmt::Display for UnknownKind {
    ghost output = { λ e. Some (codes "no step is of kind " ++ decimal e.0) };

    fn fmt<W: fmt::Write>(&self, f: &mut fmt::Formatter<W>) -> fmt::Result {
        let number = self.0;
        write!(f, "no step is of kind {number}")
    }
}

impl Error for UnknownKind {}
