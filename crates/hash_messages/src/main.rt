// Prints the SHA-256 hash of each message of a file, as a line of hexadecimal digits. In the file each message stands after
// its length in four bytes, the low byte first.
#![tactic(auto)]

ghost use Rattle.std.specs.Prelude.{◌<◌, length, IfSome};

use anyhow::{Context, anyhow, bail};
use program::finish;
use std::alloc::Global;
use std::fmt::Write;
use std::process::ExitCode;
use std::{env, fs};

// The first message and what stands after it, unless the bytes end before it does.
fn first_message(bytes: &[u8]) -> Option<(&[u8], &[u8])>
    ensures { IfSome result (λ p. length p.1.now < length bytes.now) }
{
    let (size, rest) = bytes.split_first_chunk::<4>()?;
    rest.split_at_checked(u32::from_le_bytes(*size) as usize)
}

fn hashes(heap: Global, bytes: &[u8]) -> anyhow::Result<String> {
    let mut text = String::new(heap);
    let mut left = bytes;
    while !left.is_empty() {
        let (message, after) = first_message(left).context("the file ends inside a message")?;
        writeln!(text, "{}", hex::encode(heap, sha256::hash(message))?)?;
        left = after;
    }
    Ok(text)
}

fn run(rt: &HostRuntime) -> anyhow::Result<ExitCode> {
    let words: Vec<String> = env::args(rt)?.skip(1).collect(rt.alloc())?;
    let [name] = words.as_slice() else {
        bail!("usage: hash_messages FILE");
    };
    let bytes = fs::read(rt, name.as_str()).map_err(|e| anyhow!("cannot read {name}: {e}"))?;
    let text = hashes(rt.alloc(), bytes.as_slice())?;
    print!(rt; "{text}")?;
    Ok(ExitCode::SUCCESS)
}

fn main(rt: HostRuntime) -> ExitCode {
    finish(&rt, "hash_messages", run(&rt))
}
