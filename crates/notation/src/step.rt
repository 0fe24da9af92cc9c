// A step that a line says, and the bytes that stand for it in a file.
ghost use Rattle.std.specs.Prelude.{◌≡◌, ◌<◌, ◌^◌, length};
ghost use Rattle.output.specs.Writes.{Writes};
ghost use Rattle.notation.specs.Steps.{body_bytes, step_told, PutsStep};

use crate::faults::Fault;
use crate::hex::put_bytes_of;
use output::Output;

// Bytes as they stand, by the digits that write them, or those of a number.
#[derive(Clone, Copy)]
pub(crate) enum Body<'a> {
    Bytes(&'a [u8]),
    Digits(&'a [u8]),
    Number(u16),
}

impl Body<'_> {
    fn len(self) -> usize
        ensures is { result ≡ length (body_bytes self.entry) }
        ensures small { result < 2 ^ 63 }
    {
        match self {
            Body::Bytes(bytes) => bytes.len(),
            Body::Digits(digits) => digits.len() / 2,
            Body::Number(_) => 2,
        }
    }

    fn put(self, out: &mut Output)
        ensures { Writes out.old out.new (body_bytes self.entry) }
    {
        match self {
            Body::Bytes(bytes) => out.put(bytes),
            Body::Digits(digits) => put_bytes_of(out, digits),
            Body::Number(number) => out.put(&number.to_le_bytes()),
        }
    }
}

// A step by its kind, the party that it is of, if it is of one, and the bytes behind that.
#[derive(Clone, Copy)]
pub(crate) struct Told<'a> {
    pub(crate) kind: u8,
    pub(crate) party: Option<u8>,
    pub(crate) body: Body<'a>,
}

impl Told<'_> {
    fn len(self) -> usize
        ensures { result ≡ length (step_told self.entry) }
    {
        match self.party {
            Some(_) => 1 + self.body.len(),
            None => self.body.len(),
        }
    }

    fn put_bytes(self, out: &mut Output)
        ensures { Writes out.old out.new (step_told self.entry) }
    {
        if let Some(party) = self.party {
            out.put_byte(party);
        }
        self.body.put(out);
    }

    // Writes the step, unless it is too long.
    pub(crate) fn put(self, out: &mut Output) -> Result<(), Fault>
        ensures { PutsStep self.entry out.old out.new result }
    {
        let length = u16::try_from(self.len()).map_err(|_| Fault::LongStep)?;
        out.put_byte(self.kind);
        out.put(&length.to_le_bytes());
        self.put_bytes(out);
        Ok(())
    }
}
