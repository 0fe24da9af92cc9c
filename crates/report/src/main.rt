// report PROTOCOL [--find NAME]: checks the protocol of a draw, and tells it in words for people: the places with their
// names, who opened and who was left out, the list's hash, the bits used; or the place of one name alone. The status is 0 if
// the protocol is accepted and the name has a place, else 1.
#![tactic(auto)]

use anyhow::{anyhow, bail};
use output::{Output, whole};
use program::finish;
use report_text::{put_place, put_report};
use std::alloc::{AllocError, Global};
use std::process::ExitCode;
use std::{env, fs};

const USAGE: &str = "usage: report PROTOCOL [--find NAME]";

// The most that is lent at first: a line for each of 2,000 names has 160 bytes at most, one for each of 255 parties 24, and
// the rest is short. Without it a file that is no protocol would be told of in eight times its size.
const TEXT: usize = 393_216;

// Writes what there is to tell, and answers whether all is well.
fn put(
    heap: Global,
    out: &mut Output,
    protocol: &[u8],
    name: Option<&str>,
) -> Result<bool, AllocError> {
    match name {
        Some(name) => Ok(put_place(heap, out, protocol, name.as_bytes())?.is_ok()),
        None => Ok(put_report(heap, out, protocol)?.is_ok()),
    }
}

// Prints what there is to tell, and answers whether all is well. What is amiss goes to stderr.
fn tell(rt: &HostRuntime, protocol: &[u8], name: Option<&str>) -> anyhow::Result<ExitCode> {
    let heap = rt.alloc();
    let size = protocol
        .len()
        .saturating_mul(8)
        .saturating_add(256)
        .min(TEXT);
    let (text, well) = whole(heap, size, |out| put(heap, out, protocol, name))?;
    if well? {
        rt.write_all(text.as_slice())?;
        return Ok(ExitCode::SUCCESS);
    }
    rt.stderr().write_all(text.as_slice())?;
    Ok(ExitCode::FAILURE)
}

fn run(rt: &HostRuntime) -> anyhow::Result<ExitCode> {
    let words: Vec<String> = env::args(rt)?.skip(1).collect(rt.alloc())?;
    let (path, name) = match words.as_slice() {
        [path] => (path, None),
        [path, option, name] if option.as_str() == "--find" => (path, Some(name.as_str())),
        _ => bail!(USAGE),
    };
    if path.as_str() == "--help" {
        println!(rt; "{USAGE}")?;
        return Ok(ExitCode::SUCCESS);
    }
    let protocol = fs::read(rt, path.as_str()).map_err(|e| anyhow!("cannot read {path}: {e}"))?;
    tell(rt, protocol.as_slice(), name)
}

fn main(rt: HostRuntime) -> ExitCode {
    finish(&rt, "report", run(&rt))
}
