// A text read line by line.
ghost use Rattle.std.specs.Prelude.{◌≡◌};
ghost use Rattle.notation.specs.Meanings.{meaning, told};
ghost use Rattle.notation.specs.Read.{from_file, read_text};
ghost use Rattle.notation.specs.Reads.{Reads, ReadsLine};

use crate::faults::{BadLine, Fault};
use crate::lines::{Lines, without_return};
use crate::parsed::{Parsed, parse};
use crate::step::{Body, Told};
use output::Output;
use step_file::{Kind, Steps};

// The opening by the contents of a file.
fn from_file(party: u8, bytes: &[u8]) -> Result<Told<'_>, Fault>
    ensures { told result ≡ from_file party bytes.now }
{
    if bytes.is_empty() {
        return Err(Fault::NoOpening);
    }
    if bytes.len() < 65535 {
        Ok(Told {
            kind: Kind::Opening.into(),
            party: Some(party),
            body: Body::Bytes(bytes),
        })
    } else {
        Err(Fault::LongFile)
    }
}

// What a line says, with the next of the files where it names one.
fn put_line<'a>(line: &'a [u8], files: &mut Steps<'a>, out: &mut Output) -> Result<(), Fault>
    ensures { ReadsLine (meaning line.now) files.old files.new out.old out.new result }
{
    match parse(line)? {
        Parsed::Nothing => Ok(()),
        Parsed::Step(told) => told.put(out),
        Parsed::File { party, path: _ } => match files.next() {
            Some(Ok(file)) => from_file(party, file.bytes)?.put(out),
            Some(Err(_)) | None => Err(Fault::NoFile),
        },
    }
}

// The steps of all lines, or of those before the first bad one.
pub(crate) fn put_steps(text: &[u8], files: &[u8], out: &mut Output) -> Result<(), BadLine>
    ensures { Reads (read_text text.now files.now) out.old out.new result }
{
    let mut files = Steps::new(files);
    for (done, line) in (Lines { rest: text }).enumerate() {
        put_line(without_return(line), &mut files, out).map_err(|fault| BadLine {
            line: done + 1,
            fault,
        })?;
    }
    Ok(())
}
