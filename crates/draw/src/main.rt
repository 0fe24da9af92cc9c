// draw STEPS [PROTOCOL]: runs a file of steps, prints what comes of it, and writes the protocol of a draw that ends.
#![tactic(auto)]

use anyhow::{anyhow, bail};
use program::finish;
use runs::{Finish, Report, draw};
use std::process::ExitCode;
use std::{env, fs};

const USAGE: &str = "usage: draw STEPS [PROTOCOL]";

// Writes a file whole or not at all: beside its place first, and then renamed. No contract can promise what a file system
// does, so no crate has this for both programs that save.
fn save(rt: &HostRuntime, path: &str, bytes: &[u8]) -> anyhow::Result<()> {
    let beside = format!(in rt.alloc(); "{path}.part")?;
    let saved = match fs::write(rt, beside.as_str(), bytes) {
        Ok(()) => fs::rename(rt, beside.as_str(), path),
        Err(e) => Err(e),
    };
    if saved.is_err() {
        let _ = fs::remove_file(rt, beside.as_str());
    }
    saved.map_err(|e| anyhow!("cannot write {path}: {e}"))
}

// Prints a report; the protocol is saved before the summary is printed, so that nobody reads of a draw that was lost.
fn tell(rt: &HostRuntime, report: Report, path: Option<&str>) -> anyhow::Result<()> {
    let Report { refusals, finish } = report;
    rt.print(refusals.as_str())?;
    let Finish {
        summary,
        left_out,
        protocol,
    } = finish?;
    if let Some(path) = path {
        save(rt, path, protocol.as_slice())?;
    }
    rt.print(summary.as_str())?;
    rt.eprint(left_out.as_str())?;
    Ok(())
}

fn run(rt: &HostRuntime) -> anyhow::Result<ExitCode> {
    let words: Vec<String> = env::args(rt)?.skip(1).collect(rt.alloc())?;
    let (steps, protocol) = match words.as_slice() {
        [steps] => (steps, None),
        [steps, protocol] => (steps, Some(protocol.as_str())),
        _ => bail!(USAGE),
    };
    if steps.as_str() == "--help" {
        println!(rt; "{USAGE}")?;
        return Ok(ExitCode::SUCCESS);
    }
    let file = fs::read(rt, steps.as_str()).map_err(|e| anyhow!("cannot read {steps}: {e}"))?;
    tell(rt, draw(rt.alloc(), file.as_slice())?, protocol)?;
    Ok(ExitCode::SUCCESS)
}

fn main(rt: HostRuntime) -> ExitCode {
    finish(&rt, "draw", run(&rt))
}
