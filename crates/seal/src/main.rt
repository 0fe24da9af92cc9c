// seal STEPS PARTY OPENING: the seal of a party's opening, for the list that is closed in a file of steps. It prints the
// party's number, the seal in hex, and until when to keep the opening secret. The status is 0 if there is a seal, else 1.
#![tactic(auto)]

use anyhow::{anyhow, bail, ensure};
use ceremony::{Draw, Listing};
use output::whole;
use program::finish;
use runs::Room;
use seal_text::put_seal;
use std::process::ExitCode;
use std::{env, fs};

const USAGE: &str = "usage: seal STEPS PARTY OPENING";

// As in the other programs: no contract can say what a file holds, so no crate has this for them.
fn read(rt: &HostRuntime, path: &str) -> anyhow::Result<Vec<u8>> {
    fs::read(rt, path).map_err(|e| anyhow!("cannot read {path}: {e}"))
}

// Prints the seal, or on stderr why there is none.
fn tell(rt: &HostRuntime, file: &[u8], party: u8, opening: &[u8]) -> anyhow::Result<ExitCode> {
    let heap = rt.alloc();
    // No seals are kept.
    let mut room = Room::new(heap, 0)?;
    let start = Draw::Listing(Listing::begin(room.lend()));
    // The lines for refused steps are not printed: the party asks for its seal alone.
    let mut refusals = String::new(heap);
    let (last, read) = runs::run(start, file, &mut refusals)?;
    ensure!(read.is_ok(), "the file of steps ends inside a step");
    let (text, sealed) = whole(heap, 256, |out| put_seal(out, &last, party, opening))?;
    if sealed.is_ok() {
        rt.write_all(text.as_slice())?;
        return Ok(ExitCode::SUCCESS);
    }
    rt.stderr().write_all(text.as_slice())?;
    Ok(ExitCode::FAILURE)
}

fn run(rt: &HostRuntime) -> anyhow::Result<ExitCode> {
    let words: Vec<String> = env::args(rt)?.skip(1).collect(rt.alloc())?;
    match words.as_slice() {
        [help] | [help, _, _] if help.as_str() == "--help" => {
            println!(rt; "{USAGE}")?;
            Ok(ExitCode::SUCCESS)
        }
        [steps, party, opening] => {
            let Ok(party) = party.as_str().parse::<u8>() else {
                bail!("a party has a number from 0 to 254");
            };
            let file = read(rt, steps.as_str())?;
            let opening = read(rt, opening.as_str())?;
            tell(rt, file.as_slice(), party, opening.as_slice())
        }
        _ => bail!(USAGE),
    }
}

fn main(rt: HostRuntime) -> ExitCode {
    finish(&rt, "seal", run(&rt))
}
