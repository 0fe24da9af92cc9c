// What can be wrong with a line.
ghost use Rattle.std.specs.Prelude.{◌≡◌, Some};
ghost use Rattle.notation.specs.Faults.{number_of, sentence, bad_line};
ghost use Rattle.output.specs.Writes.{Writes};

use output::Output;
use std::error::Error;
use std::fmt;

// No form of a step; a name, digits, a seal, the number of a list or of a party, the bytes of an opening or the kind of a
// step that are not there or not as they should be; a step or a file that is too long; a file that is not there.
#[derive(Clone, Copy, Debug, PartialEq, Eq)]
pub enum Fault {
    NoForm = 1,
    NoName,
    NoDigits,
    NoSeal,
    NoList,
    NoParty,
    NoOpening,
    NoKind,
    LongStep,
    NoFile,
    LongFile,
}

impl Fault {
    // The number of a fault, from 1 to 11.
    pub fn number(self) -> u8
        ensures { result ≡ number_of self }
    {
        self as u8
    }

    fn words(self) -> &'static str
        ensures { result.now ≡ sentence self }
    {
        match self {
            Fault::NoForm => "this is no step",
            Fault::NoName => "an entry has a name",
            Fault::NoDigits => "bytes are pairs of hex digits",
            Fault::NoSeal => "a seal has 64 hex digits",
            Fault::NoList => "a list is closed with a number from 0 to 65535",
            Fault::NoParty => "a party has a number from 0 to 255",
            Fault::NoOpening => "an opening has bytes",
            Fault::NoKind => "a step has a kind",
            Fault::LongStep => "a step has at most 65535 bytes",
            Fault::NoFile => "the file is missing",
            Fault::LongFile => "the file has more than 65534 bytes",
        }
    }
}

impl fmt::Display for Fault {
    ghost output = { λ fault. Some (sentence fault) };

    fn fmt<W: fmt::Write>(&self, f: &mut fmt::Formatter<W>) -> fmt::Result {
        f.write_str(self.words())
    }
}

// A bad line: its number, counted from 1, and what is wrong.
#[derive(Clone, Copy, Debug, PartialEq, Eq)]
pub struct BadLine {
    pub line: usize,
    pub fault: Fault,
}

impl fmt::Display for BadLine {
    ghost output = { λ bad. Some (bad_line bad) };

    fn fmt<W: fmt::Write>(&self, f: &mut fmt::Formatter<W>) -> fmt::Result {
        let line = self.line;
        let fault = self.fault;
        write!(f, "line {line}: {fault}")
    }
}

impl Error for BadLine {}

// Writes a bad line in words, as `line 3: a seal has 64 hex digits`. It stands beside Display because it cannot fail.
pub fn put_bad_line(out: &mut Output, bad: BadLine)
    ensures { Writes out.old out.new (bad_line bad) }
{
    out.put(b"line ");
    out.put_decimal(bad.line);
    out.put(b": ");
    out.put(bad.fault.words().as_bytes());
}
