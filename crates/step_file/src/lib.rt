// A file of steps, read one step at a time: one byte for its kind, two bytes of length, low byte first, and its bytes.
#![tactic(auto)]

ghost use Rattle.std.specs.Prelude.{◌≡◌, codes, length, Some};
ghost use Rattle.step_file.specs.Laws.{ReadAgain};
ghost use Rattle.step_file.specs.Reading.{first_step, reading};

mod kind;

pub use crate::kind::{Kind, UnknownKind};
use std::error::Error;
use std::fmt;

#[derive(Clone, Copy, Debug, PartialEq, Eq)]
pub struct Step<'a> {
    // the byte as it stands: a file may hold kinds that no step has
    pub kind: u8,
    pub bytes: &'a [u8],
}

// A file ends inside a step.
#[derive(Clone, Copy, Debug, PartialEq, Eq)]
pub struct CutShort;

impl fmt::Display for CutShort {
    ghost output = { λ _. Some (codes "the file ends inside a step") };

    fn fmt<W: fmt::Write>(&self, f: &mut fmt::Formatter<W>) -> fmt::Result {
        f.write_str("the file ends inside a step")
    }
}

impl Error for CutShort {}

// The first step of a file, if there is any, and what is left behind it.
pub fn split_step(file: &[u8]) -> Result<Option<(Step<'_>, &[u8])>, CutShort>
    ensures { reading result ≡ first_step file.now }
{
    if file.is_empty() {
        return Ok(None);
    }
    let ([kind, low, high], rest) = file.split_first_chunk::<3>().ok_or(CutShort)?;
    let length = usize::from(u16::from_le_bytes([*low, *high]));
    let (bytes, rest) = rest.split_at_checked(length).ok_or(CutShort)?;
    Ok(Some((Step { kind: *kind, bytes }, rest)))
}

// The steps of a file one after another, and behind them that it is cut short, if it is.
#[derive(Clone, Copy, Debug)]
pub struct Steps<'a> {
    pub rest: &'a [u8],
}

impl<'a> Steps<'a> {
    pub fn new(file: &'a [u8]) -> Steps<'a>
        ensures { result.rest.now ≡ file.now }
    {
        Steps { rest: file }
    }
}

impl<'a> Iterator for Steps<'a> {
    ghost use Rattle.std.specs.Iterator.{at_most};
    ghost use Rattle.step_file.specs.Walk.{GivesStep};

    type Item = Result<Step<'a>, CutShort>;

    ghost next_gives = { GivesStep };

    ghost remaining = { λ s. at_most (length s.rest.now) };

    fn next(&mut self) -> Option<Result<Step<'a>, CutShort>> {
        match split_step(self.rest) {
            Ok(None) => None,
            Ok(Some((step, rest))) => {
                self.rest = rest;
                Some(Ok(step))
            }
            Err(cut) => {
                self.rest = &[];
                Some(Err(cut))
            }
        }
    }
}

// A file that is written from steps reads as just those steps, and is not cut short.
pub fn read_again_stands() -> u8
    ensures { ReadAgain }
{
    0
}
