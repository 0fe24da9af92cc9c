// Hashes messages one after another, to see how long it takes: COUNT of them, or 16, of SIZE bytes, 32 to 8,192, or 8,192.
// Each but the first begins with the hash of the one before, so that none can be left out, and the last hash is printed.
#![tactic(auto)]

ghost use Rattle.std.specs.Prelude.{◌≤◌, length};

use anyhow::{Context, ensure};
use program::finish;
use std::env;
use std::process::ExitCode;

const USAGE: &str = "usage: sha256_bench [COUNT [SIZE]], SIZE from 32 to 8192";

fn last_hash(message: &mut [u8], count: u64) -> [u8; 32]
    requires { 32 ≤ length message.old }
{
    let mut last = [0u8; 32];
    for _ in 0..count {
        last = sha256::hash(message);
        message[0..32].copy_from_slice(&last);
    }
    last
}

fn number(text: Option<String>, otherwise: u64) -> anyhow::Result<u64> {
    match text {
        Some(text) => text.as_str().parse::<u64>().ok().context(USAGE),
        None => Ok(otherwise),
    }
}

fn run(rt: &HostRuntime) -> anyhow::Result<ExitCode> {
    let mut args = env::args(rt)?;
    let _program = args.next();
    let count = number(args.next(), 16)?;
    let size = number(args.next(), 8192)?;
    ensure!((32..=8192).contains(&size), USAGE);
    let mut message = [97u8; 8192];
    let hash = last_hash(&mut message[0..size as usize], count);
    println!(rt; "{}", hex::encode(rt.alloc(), hash)?)?;
    Ok(ExitCode::SUCCESS)
}

fn main(rt: HostRuntime) -> ExitCode {
    finish(&rt, "sha256_bench", run(&rt))
}
