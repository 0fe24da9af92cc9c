// What a line was found to be.
ghost use Rattle.std.specs.Prelude.{◌≡◌, None};
ghost use Rattle.step_file.specs.Kinds.{kind_number};
ghost use Rattle.notation.specs.Meanings.{meant, hex_step, entry, entry_hex, close_list, seal, alone, opened, opening, any_step, rest_read, meaning};

use crate::faults::Fault;
use crate::forms::{Form, form_of};
use crate::hex::{all_digits, are_pairs, pair_value};
use crate::lines::{is_blank, split_once};
use crate::numbers::number_of;
use crate::step::{Body, Told};
use parts::behind;
use step_file::Kind;

// Nothing, a step, or an opening of a party with the path of the file that has its bytes.
#[derive(Clone, Copy)]
pub(crate) enum Parsed<'a> {
    Nothing,
    Step(Told<'a>),
    File { party: u8, path: &'a [u8] },
}

fn step(kind: Kind, body: Body<'_>) -> Parsed<'_>
    ensures { result ≡ Parsed.Step (record { kind = kind_number kind; party = None; body = body.entry }) }
{
    Parsed::Step(Told {
        kind: kind.into(),
        party: None,
        body,
    })
}

fn hex_step(kind: Kind, digits: &[u8]) -> Result<Parsed<'_>, Fault>
    ensures { meant result ≡ hex_step (kind_number kind) digits.now }
{
    if are_pairs(digits) {
        Ok(step(kind, Body::Digits(digits)))
    } else {
        Err(Fault::NoDigits)
    }
}

fn entry(name: &[u8]) -> Result<Parsed<'_>, Fault>
    ensures { meant result ≡ entry name.now }
{
    if name.is_empty() {
        Err(Fault::NoName)
    } else {
        Ok(step(Kind::Entry, Body::Bytes(name)))
    }
}

fn entry_hex(digits: &[u8]) -> Result<Parsed<'_>, Fault>
    ensures { meant result ≡ entry_hex digits.now }
{
    if digits.is_empty() {
        Err(Fault::NoName)
    } else {
        hex_step(Kind::Entry, digits)
    }
}

fn close_list<'a>(number: Option<u16>) -> Result<Parsed<'a>, Fault>
    ensures { meant result ≡ close_list number }
{
    let number = number.ok_or(Fault::NoList)?;
    Ok(step(Kind::CloseList, Body::Number(number)))
}

fn seal(digits: &[u8]) -> Result<Parsed<'_>, Fault>
    ensures { meant result ≡ seal digits.now }
{
    if digits.len() == 64 && all_digits(digits) {
        Ok(step(Kind::Seal, Body::Digits(digits)))
    } else {
        Err(Fault::NoSeal)
    }
}

fn alone(kind: Kind, rest: &[u8]) -> Result<Parsed<'_>, Fault>
    ensures { meant result ≡ alone (kind_number kind) rest.now }
{
    if rest.is_empty() {
        Ok(step(kind, Body::Bytes(rest)))
    } else {
        Err(Fault::NoForm)
    }
}

fn opened(party: u8, word: &[u8]) -> Result<Parsed<'_>, Fault>
    ensures { meant result ≡ opened party word.now }
{
    if !all_digits(word) {
        return Ok(Parsed::File { party, path: word });
    }
    if are_pairs(word) {
        Ok(Parsed::Step(Told {
            kind: Kind::Opening.into(),
            party: Some(party),
            body: Body::Digits(word),
        }))
    } else {
        Err(Fault::NoDigits)
    }
}

fn opening(party: Option<u16>, word: &[u8]) -> Result<Parsed<'_>, Fault>
    ensures { meant result ≡ opening party word.now }
{
    let number = party.ok_or(Fault::NoParty)?;
    let party = u8::try_from(number).map_err(|_| Fault::NoParty)?;
    if word.is_empty() {
        return Err(Fault::NoOpening);
    }
    opened(party, word)
}

fn any_step(digits: &[u8]) -> Result<Parsed<'_>, Fault>
    ensures { meant result ≡ any_step digits.now }
{
    if !are_pairs(digits) {
        return Err(Fault::NoDigits);
    }
    let ([high, low], digits) = digits.split_first_chunk::<2>().ok_or(Fault::NoKind)?;
    Ok(Parsed::Step(Told {
        kind: pair_value(*high, *low),
        party: None,
        body: Body::Digits(digits),
    }))
}

// What stands behind the words of a form.
fn parse_rest(form: Form, rest: &[u8]) -> Result<Parsed<'_>, Fault>
    ensures { meant result ≡ rest_read form rest.now }
{
    match form {
        Form::Entry => entry(rest),
        Form::EntryHex => entry_hex(rest),
        Form::CloseList => close_list(number_of(rest)),
        Form::Seal => seal(rest),
        Form::CloseSeals => alone(Kind::CloseSeals, rest),
        Form::Opening => {
            let (party, word) = split_once(rest, b' ');
            opening(number_of(party), word)
        }
        Form::Close => alone(Kind::Close, rest),
        Form::StepHex => any_step(rest),
    }
}

pub(crate) fn parse(line: &[u8]) -> Result<Parsed<'_>, Fault>
    ensures { meant result ≡ meaning line.now }
{
    if is_blank(line) || line.starts_with(b"#") {
        return Ok(Parsed::Nothing);
    }
    let form = form_of(line).ok_or(Fault::NoForm)?;
    parse_rest(form, behind(line, form.words().len()))
}
