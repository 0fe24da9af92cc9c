// The hash of a message that comes in parts.
ghost use Rattle.std.specs.Prelude.{◌≡◌, ◌+◌, ◌%◌, ◌≤◌, length};
ghost use Rattle.sha256.specs.Absorbed.{fresh, absorbed, finished};

use crate::state::State;
use crate::{block, padding, rounds};

// `state` is the hash value after the whole blocks so far, the first bytes of `pending` are those of the block that is
// not whole yet, and `total` is the number of all the bytes, modulo 2^64. The memory is fixed, since no heap is used here.
#[derive(Clone, Copy)]
pub struct Hasher {
    state: State,
    pending: [u8; 64],
    total: u64,
}

impl Hasher {
    pub fn new() -> Hasher
        ensures { result ≡ fresh }
    {
        Hasher {
            state: rounds::start(),
            pending: [0; 64],
            total: 0,
        }
    }

    // Takes in a piece that ends within the block that is being filled.
    fn absorb(&mut self, piece: &[u8])
        requires { self.old.total % 64 + length piece.now ≤ 64 }
        ensures { self.new ≡ absorbed self.old piece.now }
    {
        let fill = (self.total % 64) as usize;
        let end = fill + piece.len();
        self.pending[fill..end].copy_from_slice(piece);
        self.total = self.total.wrapping_add(piece.len() as u64);
        if end == 64 {
            self.state = block::compress(self.state, &self.pending);
        }
    }

    pub fn update(&mut self, part: &[u8])
        ensures { self.new ≡ absorbed self.old part.now }
    {
        let mut left = part;
        while !left.is_empty() {
            let room = 64 - (self.total % 64) as usize;
            let (piece, after) = left.split_at(room.min(left.len()));
            self.absorb(piece);
            left = after;
        }
    }

    // The padding is the byte 128, the zeros and the length.
    pub fn finish(mut self) -> [u8; 32]
        ensures { result ≡ finished self }
    {
        let total = self.total;
        self.update(&[128]);
        self.update(padding::zeros(total));
        self.update(&padding::length(total));
        block::digest(self.state)
    }
}
