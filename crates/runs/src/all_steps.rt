// The steps of a file one after another.
ghost use Rattle.std.specs.Prelude.{◌≡◌, List, ◌++◌, is_err, IfOk, string_bytes, OnOk};
ghost use Rattle.ceremony.specs.Draws.{state, step};
ghost use Rattle.runs.specs.Runs.{after_steps, line_of, refusal_lines, refusals_in};
ghost use Rattle.step_file.specs.File.{file_steps, file_cut};

use ceremony::Draw;
use std::alloc::AllocError;
use step_file::{CutShort, Step, Steps};
use texts::add_refusal;

// One step, and the line that tells of it if it is refused.
fn take_step<'a>(
    draw: Draw<'a>,
    number: usize,
    taken: Step,
    text: &mut String,
) -> Result<Draw<'a>, AllocError>
    ensures state { IfOk result (λ d. state d ≡ (step (state draw.entry) taken.entry.kind taken.entry.bytes.now).0) }
    ensures text { OnOk result (string_bytes text.new ≡ string_bytes text.old ++ line_of number (step (state draw.entry) taken.entry.kind taken.entry.bytes.now).1) }
{
    let (next, answer) = draw.step(taken.kind, taken.bytes);
    if let Err(why) = answer {
        add_refusal(text, number, why)?;
    }
    Ok(next)
}

// All steps of a file: the state after them, whether the file is whole or ends inside a step, and a line for each refusal,
// put behind the text. On an `AllocError` the draw is gone, and the text may hold some of the lines.
pub fn run<'a>(
    start: Draw<'a>,
    file: &[u8],
    text: &mut String,
) -> Result<(Draw<'a>, Result<(), CutShort>), AllocError>
    ensures state { IfOk result (λ p. state p.0 ≡ after_steps (state start.entry) (file_steps file.now)) }
    ensures cut { IfOk result (λ p. is_err p.1 ≡ file_cut file.now) }
    ensures text { OnOk result (string_bytes text.new ≡ string_bytes text.old ++ refusal_lines (refusals_in (state start.entry) 1 (file_steps file.now))) }
{
    let mut draw = start;
    for (before, step) in Steps::new(file).enumerate() {
        let step = match step {
            Ok(step) => step,
            Err(cut) => return Ok((draw, Err(cut))),
        };
        draw = take_step(draw, before + 1, step, text)?;
    }
    Ok((draw, Ok(())))
}
