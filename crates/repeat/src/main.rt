// repeat PROTOCOL: checks the protocol of a draw, and prints what the draw printed at its end, or why the protocol is
// refused. The status is 0 if it is accepted, else 1.
#![tactic(auto)]

use anyhow::{anyhow, bail};
use program::finish;
use protocol::repeat_text;
use std::process::ExitCode;
use std::{env, fs};

const USAGE: &str = "usage: repeat PROTOCOL";

// Prints what is to be said of the protocol in a file, and answers whether it is accepted.
fn repeat(rt: &HostRuntime, path: &str) -> anyhow::Result<ExitCode> {
    let protocol = fs::read(rt, path).map_err(|e| anyhow!("cannot read {path}: {e}"))?;
    match repeat_text(rt.alloc(), protocol.as_slice())? {
        Ok(text) => {
            rt.print(text.as_str())?;
            Ok(ExitCode::SUCCESS)
        }
        Err(text) => {
            rt.print(text.as_str())?;
            Ok(ExitCode::FAILURE)
        }
    }
}

fn run(rt: &HostRuntime) -> anyhow::Result<ExitCode> {
    let words: Vec<String> = env::args(rt)?.skip(1).collect(rt.alloc())?;
    let [word] = words.as_slice() else {
        bail!(USAGE);
    };
    if word.as_str() == "--help" {
        println!(rt; "{USAGE}")?;
        return Ok(ExitCode::SUCCESS);
    }
    repeat(rt, word.as_str())
}

fn main(rt: HostRuntime) -> ExitCode {
    finish(&rt, "repeat", run(&rt))
}
