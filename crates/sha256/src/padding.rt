// The parts of a message's padding: FIPS 180-4, section 5.1.1.
ghost use Rattle.std.specs.Prelude.{◌≡◌, ◌*◌, ◌%◌, ◌^◌, replicate};
ghost use Rattle.sha256.specs.Padding.{zeros, eight_bytes};

const ZEROS: [u8; 64] = [0; 64];

// How many bytes of zeros there are between the first byte of the padding and the length.
fn zero_bytes(total: u64) -> usize
    ensures { result ≡ zeros total }
{
    ((119 - total % 64) % 64) as usize
}

// The zeros after the first byte of the padding of a message of `total` bytes.
pub(crate) fn zeros(total: u64) -> &'static [u8]
    ensures { result.now ≡ replicate (zeros total) 0 }
{
    &ZEROS[..zero_bytes(total)]
}

// The number of bits of a message of `total` bytes, as the padding ends with it.
pub(crate) fn length(total: u64) -> [u8; 8]
    ensures { result ≡ eight_bytes (8 * total % 2 ^ 64) }
{
    let bits = total.wrapping_mul(8);
    bits.to_be_bytes()
}
