// Decimal numbers read.
ghost use Rattle.std.specs.Prelude.{◌≡◌};
ghost use Rattle.notation.specs.Numbers.{digit_more, number};

// A number with one digit more, if it stays below 65536.
fn digit_more(number: u16, digit: u8) -> Option<u16>
    ensures { result ≡ digit_more number digit }
{
    let value = char::from(digit).to_digit(10)?;
    number.checked_mul(10)?.checked_add(value as u16)
}

// The number below 65536 that digits write.
// By a `for`: the library's parse takes a plus sign too, and no lemma of the library says what a try_fold gives.
pub(crate) fn number_of(digits: &[u8]) -> Option<u16>
    ensures { result ≡ number digits.now }
{
    if digits.is_empty() {
        return None;
    }
    let mut number = 0;
    for digit in digits {
        number = digit_more(number, *digit)?;
    }
    Some(number)
}
