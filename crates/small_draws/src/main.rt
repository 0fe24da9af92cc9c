// Draws the order of a few names from every row of a few bits, and prints how many rows give each order and how many
// give none.
#![tactic(auto)]

ghost use Rattle.std.specs.Prelude.{◌<◌, ◌≤◌};

use anyhow::Context;
use order::draw_order;

// A tally for each row of five names, read as a number with five digits of five values: an array, since all of them are looked
// through at the end, and no memory is asked for.
const TALLIES: usize = 3125;

fn tally_of(order: &[u16]) -> usize
    ensures { result < 3125 }
{
    let number = order.iter().fold(0usize, |number, name| {
        number.wrapping_mul(5).wrapping_add(usize::from(*name))
    });
    number % TALLIES
}

// The rows of so many bits, each at the end of as few bytes as hold it. Tallies those that give an order, and gives the
// number of the others.
fn count_rows(names: usize, bits: u32, tallies: &mut [u32; TALLIES]) -> u32
    requires few { names ≤ 5 }
    requires short { bits ≤ 16 }
{
    let length = bits.div_ceil(8) as usize;
    let from = 8 * length - bits as usize;
    let mut without = 0u32;
    for row in 0..1u32 << bits {
        let bytes = row.to_be_bytes();
        let mut places = [0u16; 5];
        let order = &mut places[0..names];
        if draw_order(order, &bytes[4 - length..], from).is_some() {
            let tally = tally_of(order);
            tallies[tally] = tallies[tally].saturating_add(1);
        } else {
            without = without.saturating_add(1);
        }
    }
    without
}

// How many rows give each order, if that is the same number for all of so many orders.
fn rows_for_each(tallies: &[u32; TALLIES], orders: usize) -> Option<u32> {
    let each = *tallies.iter().find(|tally| **tally > 0)?;
    let equal = tallies.iter().all(|tally| *tally == 0 || *tally == each);
    let found = tallies.iter().filter(|tally| **tally > 0).count();
    (equal && found == orders).then_some(each)
}

fn line(rt: &HostRuntime, names: usize, orders: usize, bits: u32) -> anyhow::Result<()>
    requires few { names ≤ 5 }
    requires short { bits ≤ 16 }
{
    let mut tallies = [0u32; TALLIES];
    let without = count_rows(names, bits, &mut tallies);
    let all = 1u32 << bits;
    let each = rows_for_each(&tallies, orders).context("some orders come more often than others")?;
    println!(rt;
        "{names} names, {bits} bits: {each} rows for each order, {without} of {all} without"
    )?;
    Ok(())
}

fn main(rt: HostRuntime) -> anyhow::Result<()> {
    line(&rt, 1, 1, 0)?;
    line(&rt, 2, 2, 3)?;
    line(&rt, 3, 6, 5)?;
    line(&rt, 3, 6, 8)?;
    line(&rt, 4, 24, 9)?;
    line(&rt, 4, 24, 12)?;
    line(&rt, 5, 120, 11)
}
