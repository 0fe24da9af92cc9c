// The order of n names from the bits of bytes, by recursion over the names that are left. A number below n is drawn:
// the name of that number is first, and is taken out; then a number below n - 1 among those left in their order, and so
// on to the last. The order is told as numbers of the list, 0 to n - 1.
#![tactic(auto)]

ghost use Rattle.std.specs.Prelude.{◌≡◌, ◌-◌, ◌/◌, ◌^◌, ◌<◌, length, take, drop, if◌then◌else◌, nat_lt, slice_index};
ghost use Rattle.std.specs.Option.{option_map};
ghost use Rattle.order.specs.Drawings.{drawing_of, names_in, drawn_in, outcome, place_after, left_in};
ghost use Rattle.order.specs.Laws.{EachOnce, ExactlyRead};
ghost use Rattle.order.specs.Orders.{numbers_from, without};
ghost use Rattle.uniform.specs.Bits.{bits};

use uniform::BitReader;

// Places have numbers of 16 bits, of which the last is no place's.
const MOST_PLACES: usize = 65_535;

// Draws the order of as many names as the slice has places, from the bits from a place on. Past 65,535 places the slice
// stays as it is, and so does all of it where the bits run out: nothing is written before the last number is drawn.
// Gives how many bits were read, or none where they have run out.
pub fn draw_order(order: &mut [u16], bytes: &[u8], from: usize) -> Option<usize>
    ensures is { result ≡ outcome (drawn_in order.old bytes.now from) }
    ensures after { order.new ≡ left_in (drawn_in order.old bytes.now from) order.old }
    ensures once { EachOnce (names_in order.old) (drawn_in order.old bytes.now from) }
    ensures exact { ExactlyRead (names_in order.old) (drop from (bits bytes.now)) (drawn_in order.old bytes.now from) }
{
    let mut reader = BitReader::new(bytes, from)?;
    let n = order.len().min(MOST_PLACES);
    // A row of fixed size, since a draw is not to fail for want of memory.
    let mut names = [u16::MAX; MOST_PLACES];
    let left = &mut names[0..n];
    number(left);
    draw_rest(&mut order[..n], left, &mut reader)?;
    Some(reader.at - from)
}

// The names of the list in its order: 0, 1, and so on.
fn number(names: &mut [u16])
    requires { length names.old < 2 ^ 16 }
    ensures { names.new ≡ numbers_from 0 (length names.old) }
{
    for (i, name) in names.iter_mut().enumerate() {
        *name = i as u16;
    }
}

// The order of the names that are left, or none. It is written on the way back, when the last number is drawn.
fn draw_rest(order: &mut [u16], left: &mut [u16], reader: &mut BitReader<'_>) -> Option<()>
    requires each { length left.old ≡ length order.old }
    requires few { length order.old < 2 ^ 16 }
    ensures is { option_map (λ u. reader.new.at) result ≡ place_after reader.old.at (drawing_of left.old (drop reader.old.at (bits reader.old.bytes.now))) }
    ensures after { order.new ≡ left_in (drawing_of left.old (drop reader.old.at (bits reader.old.bytes.now))) order.old }
{
    let n = order.len();
    if n == 0 {
        return Some(());
    }
    let k = reader.draw_below(n as u16)?;
    let (name, left) = take_out(left, k as usize);
    draw_rest(&mut order[1..], left, reader)?;
    order[0] = name;
    Some(())
}

// Takes out name k, and gives the others in their order. The names on the shorter side of it move.
fn take_out(names: &mut [u16], k: usize) -> (u16, &mut [u16])
    requires { k < length names.old }
    ensures is { result.0 ≡ slice_index names.old k }
    ensures left { result.1.now ≡ without k names.old }
    ensures fewer { length result.1.now ≡ length names.old - 1 }
{
    let name = names[k];
    if k < names.len() / 2 {
        names.copy_within(..k, 1);
        (name, &mut names[1..])
    } else {
        let last = names.len() - 1;
        names[k..].copy_within(1.., 0);
        (name, &mut names[..last])
    }
}
