// SHA-256, of FIPS 180-4, for messages of any length.
//
// `hash` is the hash of a message that lies in one piece. A `Hasher` takes in a message part by part, with no copy of them
// together: `Hasher::new()`, an `update` for each part, and `finish`. Its contracts say what it is after each call
// (specs/Absorbed.antt), and proofs/Laws.antt has what a caller cites: that a hasher ends with `sha256` of all the parts,
// and that a hash is 32 bytes.
#![tactic(auto)]

ghost use Rattle.std.specs.Prelude.{◌≡◌};
ghost use Rattle.sha256.specs.Sha256.{sha256};

mod block;
mod padding;
mod rounds;
mod schedule;
mod state;
mod stream;
pub mod theorems;
mod words;

pub use stream::Hasher;

pub fn hash(message: &[u8]) -> [u8; 32]
    ensures { result ≡ sha256 message.now }
{
    let mut hasher = Hasher::new();
    hasher.update(message);
    hasher.finish()
}
