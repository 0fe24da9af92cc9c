// Draws the order of 1,400 names from 8,192 bytes as often as the first argument says, for timing. Each order changes a
// byte for the next.
#![tactic(auto)]

use order::draw_order;
use std::env;

// The bytes that the first order is drawn from.
fn fill(bytes: &mut [u8]) {
    let mut state = 1u64;
    for byte in bytes.iter_mut() {
        state = state
            .wrapping_mul(6364136223846793005)
            .wrapping_add(1442695040888963407);
        *byte = (state >> 56) as u8;
    }
}

// Draws once, changes a byte, and mixes what was drawn into the sum that is printed.
fn once(order: &mut [u16; 1400], bytes: &mut [u8; 8192], sum: u64) -> u64 {
    let used = draw_order(order, bytes, 0).unwrap_or(0) as u64;
    let ends = u64::from(order[0]) + u64::from(order[1399]);
    bytes[(ends & 8191) as usize] ^= 90;
    sum.wrapping_mul(31)
        .wrapping_add(used)
        .wrapping_add(u64::from(order[700]))
        .wrapping_add(ends)
}

fn main(rt: HostRuntime) -> anyhow::Result<()> {
    let times = match env::args(&rt)?.nth(1) {
        Some(text) => text.parse::<u32>()?,
        None => 100,
    };
    let mut bytes = [0u8; 8192];
    fill(&mut bytes);
    let mut order = [0u16; 1400];
    let mut sum = 0u64;
    for _ in 0..times {
        sum = once(&mut order, &mut bytes, sum);
    }
    println!(rt; "{times} orders, sum {sum}")?;
    Ok(())
}
