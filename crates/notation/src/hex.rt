// Hexadecimal digits read, of either case.
ghost use Rattle.std.specs.Prelude.{◌≡◌, ◌<◌};
ghost use Rattle.output.specs.Writes.{Writes};
ghost use Rattle.notation.specs.Hex.{digit_value, all_digits, are_pairs, bytes_of, pair_value};

use output::Output;

// The value of a digit; any other byte counts as 0.
fn digit_value(digit: u8) -> u8
    ensures is { result ≡ digit_value digit }
    ensures small { result < 16 }
{
    match char::from(digit).to_digit(16) {
        Some(value) => value as u8,
        None => 0,
    }
}

// The byte that two digits write.
pub(crate) fn pair_value(high: u8, low: u8) -> u8
    ensures { result ≡ pair_value high low }
{
    16 * digit_value(high) + digit_value(low)
}

pub(crate) fn all_digits(digits: &[u8]) -> bool
    ensures { result ≡ all_digits digits.now }
{
    digits.iter().all(|digit| digit.is_ascii_hexdigit())
}

pub(crate) fn are_pairs(digits: &[u8]) -> bool
    ensures { result ≡ are_pairs digits.now }
{
    digits.len() % 2 == 0 && all_digits(digits)
}

// Writes the bytes that digits write, two by two.
pub(crate) fn put_bytes_of(out: &mut Output, digits: &[u8])
    ensures { Writes out.old out.new (bytes_of digits.now) }
{
    let (pairs, _) = digits.as_chunks::<2>();
    for [high, low] in pairs {
        out.put_byte(pair_value(*high, *low));
    }
}
