// The message schedule of one block: FIPS 180-4, section 6.2.2, step 1.
ghost use Rattle.std.specs.Prelude.{◌≡◌, ◌<◌};
ghost use Rattle.sha256.specs.Schedule.{first_words, next, schedule};

use crate::words;
use std::array;

fn first_words(block: &[u8; 64]) -> [u32; 16]
    ensures { result ≡ first_words 16 block.now }
{
    let (words, _) = block.as_chunks::<4>();
    array::from_fn(|t| u32::from_be_bytes(words[t]))
}

// The word sixteen places on from `t`.
fn next_word(words: &[u32; 64], t: usize) -> u32
    requires { t < 48 }
    ensures { result ≡ next t words.now }
{
    words::small_sigma1(words[t + 14])
        .wrapping_add(words[t + 9])
        .wrapping_add(words::small_sigma0(words[t + 1]))
        .wrapping_add(words[t])
}

pub(crate) fn whole(block: &[u8; 64]) -> [u32; 64]
    ensures { result ≡ schedule 48 block.now }
{
    let mut words = [0u32; 64];
    words[..16].copy_from_slice(&first_words(block));
    for t in 0..48 {
        words[t + 16] = next_word(&words, t);
    }
    words
}
