// steps TEXT STEPS: reads a text for people, and writes the file of steps that it says.
// steps --show STEPS: prints a file of steps as such a text.
#![tactic(auto)]

use anyhow::{anyhow, bail};
use names_text::is_text;
use notation::{Paths, read, show};
use output::Output;
use program::finish;
use std::alloc::{AllocError, Global};
use std::error::Error;
use std::process::ExitCode;
use std::str::from_utf8;
use std::{env, fs};

const USAGE: &str = "usage: steps TEXT STEPS, or steps --show STEPS";

// As in the other programs: no contract can say what a file holds, so no crate has this for them.
fn read_file(rt: &HostRuntime, path: &str) -> anyhow::Result<Vec<u8>> {
    fs::read(rt, path).map_err(|e| anyhow!("cannot read {path}: {e}"))
}

// Writes a file whole or not at all: beside its place first, and then renamed. No contract can promise what a file system
// does, so no crate has this for both programs that save.
fn save(rt: &HostRuntime, path: &str, bytes: &[u8]) -> anyhow::Result<()> {
    let beside = format!(in rt.alloc(); "{path}.part")?;
    let saved = match fs::write(rt, beside.as_str(), bytes) {
        Ok(()) => fs::rename(rt, beside.as_str(), path),
        Err(e) => Err(e),
    };
    if saved.is_err() {
        let _ = fs::remove_file(rt, beside.as_str());
    }
    saved.map_err(|e| anyhow!("cannot write {path}: {e}"))
}

// Adds the contents of a file as a step. What is longer than a step is cut, and still too long for an opening.
fn add_contents(files: &mut Vec<u8>, bytes: &[u8]) -> Result<(), AllocError> {
    let size = u16::try_from(bytes.len()).unwrap_or(u16::MAX);
    files.push(0)?;
    files.extend_from_slice(&size.to_le_bytes())?;
    files.extend_from_slice(&bytes[..usize::from(size)])
}

// A path that may be printed: what a text holds is not to reach a terminal unseen.
fn path_of(bytes: &[u8]) -> anyhow::Result<&str> {
    match from_utf8(bytes) {
        Ok(path) if is_text(bytes) => Ok(path),
        _ => Err(anyhow!("a path is not UTF-8 without control characters")),
    }
}

// The contents of the files that the lines name, one after another.
fn contents(rt: &HostRuntime, text: &[u8]) -> anyhow::Result<Vec<u8>> {
    let mut files = Vec::new(rt.alloc());
    for named in Paths::new(text) {
        let file = read_file(rt, path_of(named.path)?)?;
        add_contents(&mut files, file.as_slice())?;
    }
    Ok(files)
}

// All that is written, in the memory that was lent, cut to it where it stands: `whole` gives a copy, which would take as much
// memory again. Where the text reaches the end of the memory there may be more, so twice as much is lent.
fn written<E: Error + Drop, F: Fn(&mut Output) -> Result<(), E> + Drop>(
    heap: Global,
    size: usize,
    write: F,
) -> anyhow::Result<Vec<u8>>
    requires { F.IsAlwaysCallable write }
{
    let mut lent = size;
    loop {
        let mut memory = vec![in heap; 0; lent]?;
        let mut out = Output {
            memory: memory.as_mut_slice(),
            at: 0,
        };
        write(&mut out)?;
        let end = out.at;
        if end < memory.len() {
            memory.truncate(end);
            return Ok(memory);
        }
        lent = 2 * memory.len() + 1;
    }
}

// The steps that a text says.
fn steps_of(heap: Global, text: &[u8], files: &[u8]) -> anyhow::Result<Vec<u8>> {
    let size = text.len().saturating_add(files.len()).saturating_add(1);
    written(heap, size, |out: &mut Output| read(text, files, out))
}

// The text that shows steps.
fn text_of(heap: Global, file: &[u8]) -> anyhow::Result<Vec<u8>> {
    let size = file.len().saturating_mul(4).saturating_add(1);
    written(heap, size, |out: &mut Output| show(file, out))
}

fn print_shown(rt: &HostRuntime, path: &str) -> anyhow::Result<()> {
    let file = read_file(rt, path)?;
    let text = text_of(rt.alloc(), file.as_slice())?;
    rt.write_all(text.as_slice())?;
    Ok(())
}

fn write_steps(rt: &HostRuntime, text: &str, path: &str) -> anyhow::Result<()> {
    let text = read_file(rt, text)?;
    let files = contents(rt, text.as_slice())?;
    let steps = steps_of(rt.alloc(), text.as_slice(), files.as_slice())?;
    save(rt, path, steps.as_slice())
}

fn run(rt: &HostRuntime) -> anyhow::Result<ExitCode> {
    let words: Vec<String> = env::args(rt)?.skip(1).collect(rt.alloc())?;
    match words.as_slice() {
        [help] | [help, _] if help.as_str() == "--help" => println!(rt; "{USAGE}")?,
        [option, steps] if option.as_str() == "--show" => print_shown(rt, steps.as_str())?,
        [text, steps] => write_steps(rt, text.as_str(), steps.as_str())?,
        _ => bail!(USAGE),
    }
    Ok(ExitCode::SUCCESS)
}

fn main(rt: HostRuntime) -> ExitCode {
    finish(&rt, "steps", run(&rt))
}
