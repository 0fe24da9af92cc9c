// A file of steps shown as text.
ghost use Rattle.std.specs.Prelude.{◌≡◌, if◌then◌else◌};
ghost use Rattle.output.specs.Writes.{Writes};
ghost use Rattle.notation.specs.Shown.{form_entry, form_shown, rest_shown, line_shown, Shows};

use crate::forms::Form;
use names_text::is_text;
use output::Output;
use parts::{behind, byte_at};
use step_file::{CutShort, Kind, Step, Steps};

fn entry_form(name: &[u8]) -> Form
    ensures { result ≡ form_entry name.now }
{
    if is_text(name) {
        return Form::Entry;
    }
    if name.is_empty() {
        Form::StepHex
    } else {
        Form::EntryHex
    }
}

// A form if it fits.
fn form_if(fits: bool, form: Form) -> Form
    ensures { result ≡ (if fits then form else Form.StepHex) }
{
    if fits { form } else { Form::StepHex }
}

// The form that shows a step.
fn form_to_show(step: Step) -> Form
    ensures { result ≡ form_shown step.entry.kind step.entry.bytes.now }
{
    match Kind::try_from(step.kind) {
        Ok(Kind::Entry) => entry_form(step.bytes),
        Ok(Kind::CloseList) => form_if(step.bytes.len() == 2, Form::CloseList),
        Ok(Kind::Seal) => form_if(step.bytes.len() == 32, Form::Seal),
        Ok(Kind::CloseSeals) => form_if(step.bytes.is_empty(), Form::CloseSeals),
        Ok(Kind::Opening) => form_if(1 < step.bytes.len(), Form::Opening),
        Ok(Kind::Close) => form_if(step.bytes.is_empty(), Form::Close),
        Err(_) => Form::StepHex,
    }
}

// What stands behind the words of a form.
fn put_rest(out: &mut Output, form: Form, step: Step)
    ensures { Writes out.old out.new (rest_shown form step.entry.kind step.entry.bytes.now) }
{
    match form {
        Form::Entry => out.put(step.bytes),
        Form::EntryHex | Form::Seal => out.put_hex(step.bytes),
        Form::CloseList => {
            let number = u16::from_le_bytes([byte_at(step.bytes, 0), byte_at(step.bytes, 1)]);
            out.put_decimal(number);
        }
        Form::Opening => {
            out.put_decimal(byte_at(step.bytes, 0));
            out.put_byte(b' ');
            out.put_hex(behind(step.bytes, 1));
        }
        Form::StepHex => {
            out.put_hex(&[step.kind]);
            out.put_hex(step.bytes);
        }
        Form::CloseSeals | Form::Close => (),
    }
}

// The line of a step.
fn put_line(out: &mut Output, step: Step)
    ensures { Writes out.old out.new (line_shown (step.entry.kind, step.entry.bytes.now)) }
{
    let form = form_to_show(step);
    out.put(form.words());
    put_rest(out, form, step);
    out.put_byte(b'\n');
}

// The lines of all steps, or of those before the place where the file ends inside a step.
pub(crate) fn put_lines(file: &[u8], out: &mut Output) -> Result<(), CutShort>
    ensures { Shows file.now out.old out.new result }
{
    for step in Steps::new(file) {
        put_line(out, step?);
    }
    Ok(())
}
