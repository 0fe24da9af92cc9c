// One block into the hash value, and the hash value as bytes.
ghost use Rattle.std.specs.Prelude.{◌≡◌, ◌+◌, ◌<◌, ◌≤◌, slice_index};
ghost use Rattle.sha256.specs.Constants.{constants};
ghost use Rattle.sha256.specs.Rounds.{round, rounds};
ghost use Rattle.sha256.specs.Sha256.{compressed, bytes_of};

use crate::state::State;
use crate::{rounds, schedule};

// Four rounds from `t` on. They are written out, since a loop of single rounds takes 15 percent longer.
fn four_rounds(s: State, words: &[u32; 64], t: usize) -> State
    requires { t + 4 ≤ 64 }
    ensures { (start : State) → s ≡ rounds t words.now start → result ≡ rounds (t + 4) words.now start }
{
    let s = rounds::turn(s, words, t);
    let s = rounds::turn(s, words, t + 1);
    let s = rounds::turn(s, words, t + 2);
    rounds::turn(s, words, t + 3)
}

pub(crate) fn compress(s: State, block: &[u8; 64]) -> State
    ensures { result ≡ compressed s block.now }
{
    let words = schedule::whole(block);
    let mut turned = s;
    for run in 0..16 {
        turned = four_rounds(turned, &words, 4 * run);
    }
    rounds::add(s, turned)
}

pub(crate) fn digest(s: State) -> [u8; 32]
    ensures { result ≡ bytes_of s }
{
    let words = [s.a, s.b, s.c, s.d, s.e, s.f, s.g, s.h];
    let mut bytes = [0u8; 32];
    bytes.copy_from_slice(words.map(u32::to_be_bytes).as_flattened());
    bytes
}
