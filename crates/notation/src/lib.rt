// A file of steps as text for people, and such text read back.
//
// The text has a line for each step:
//
//     entry NAME        kind 1, a name, taken as it stands behind the one space
//     entry-hex HEX     kind 1, the bytes of a name
//     close list L      kind 2, a number from 0 to 65535, as two bytes, low byte first
//     seal HEX          kind 3, 32 bytes
//     close seals       kind 4
//     opening P HEX     kind 5, the number of a party from 0 to 255, and the bytes that it opens with; what is not made of
//                       digits only is the path of a file that has the bytes
//     close             kind 6
//     step-hex HEX      any step: its kind and its bytes
//
// A carriage return at the end of a line is passed over. Blank lines and lines that begin with # mean nothing.
#![tactic(auto)]

ghost use Rattle.std.specs.Prelude.{◌≡◌, false, []};
ghost use Rattle.notation.specs.Laws.{ShownRead, WholeRead};
ghost use Rattle.notation.specs.Read.{read_text, written};
ghost use Rattle.notation.specs.Reads.{ReadsWhole};
ghost use Rattle.notation.specs.Shown.{text_of, ShowsWhole};
ghost use Rattle.step_file.specs.File.{file_cut};

pub use faults::{BadLine, Fault, put_bad_line};
pub use paths::{NamedFile, Paths};

mod faults;
mod forms;
mod hex;
mod lines;
mod numbers;
mod parsed;
mod paths;
mod reading;
mod shown;
mod step;

use output::Output;
use reading::put_steps;
use shown::put_lines;
use step_file::CutShort;

// No memory, for a pass that only looks.
fn nowhere<'a>() -> Output<'a> {
    Output {
        memory: &mut [],
        at: 0,
    }
}

// Writes the text of a file of steps; where the file ends inside a step, nothing is written. So a pass over no memory comes
// first.
pub fn show(file: &[u8], out: &mut Output) -> Result<(), CutShort>
    ensures is { ShowsWhole file.now out.old out.new result }
    ensures again { file_cut file.now ≡ false → read_text (text_of file.now) [] ≡ written file.now }
{
    put_lines(file, &mut nowhere())?;
    put_lines(file, out)
}

// Writes the file of steps that a text says, or answers with the first bad line, and nothing is written. So a pass over no
// memory comes first. The contents of the files that lines name stand in `files`, in the order of those lines, as a file of
// steps, one for each.
pub fn read(text: &[u8], files: &[u8], out: &mut Output) -> Result<(), BadLine>
    ensures is { ReadsWhole (read_text text.now files.now) out.old out.new result }
    ensures whole { WholeRead text.now files.now }
{
    put_steps(text, files, &mut nowhere())?;
    put_steps(text, files, out)
}

// A whole file of steps that is shown and read again is the same file.
pub fn shown_read_stands() -> u8
    ensures { ShownRead }
{
    0
}
