// Text and bytes written one after another into lent memory, which may be full.
#![tactic(auto)]

ghost use Rattle.std.specs.Prelude.{[], take, ◌∷◌, ◌≡◌, ◌<◌};
ghost use Rattle.output.specs.Hex.{hex, hex_digit};
ghost use Rattle.output.specs.Laws.{Fitting, Told};
ghost use Rattle.output.specs.Writes.{Writes};

use itoa::{Buffer, Integer};
use parts::front;

mod growing;

pub use growing::whole;

// Lent memory, and the place in it where the next byte goes. It is no `fmt::Write`: what is put may be any bytes, and memory
// that is full is no error.
//
// What is put is written as far as the memory goes, and the place moves behind what is written. So a place before the end
// of the memory tells that all is there; a caller who finds it at the end lends more and begins anew.
#[derive(Drop)]
pub struct Output<'a> {
    pub memory: &'a mut [u8],
    pub at: usize,
}

impl Output<'_> {
    // What stands in the memory before the place.
    pub fn written(&self) -> &[u8]
        ensures { result.now ≡ take self.now.at self.now.memory.now }
    {
        front(self.memory, self.at)
    }

    // Writes bytes.
    pub fn put(&mut self, bytes: &[u8])
        ensures { Writes self.old self.new bytes.now }
    {
        if self.memory.len() <= self.at {
            return;
        }
        let size = bytes.len().min(self.memory.len() - self.at);
        self.memory[self.at..self.at + size].copy_from_slice(&bytes[..size]);
        self.at += size;
    }

    // Writes one byte.
    pub fn put_byte(&mut self, byte: u8)
        ensures { Writes self.old self.new (byte ∷ []) }
    {
        if self.at < self.memory.len() {
            self.memory[self.at] = byte;
            self.at += 1;
        }
    }

    // Writes a number in decimal digits.
    pub fn put_decimal<N: Integer>(&mut self, number: N)
        ensures { Writes self.old self.new (N.text number) }
    {
        let mut digits = Buffer::new();
        self.put(digits.format(number).as_bytes());
    }

    // Writes bytes as hexadecimal digits in lower case, two to a byte.
    pub fn put_hex(&mut self, bytes: &[u8])
        ensures { Writes self.old self.new (hex bytes.now) }
    {
        for byte in bytes {
            self.put_byte(hex_digit(*byte / 16));
            self.put_byte(hex_digit(*byte % 16));
        }
    }
}

// The library's digit is a character that may be none, so it is no plainer.
fn hex_digit(value: u8) -> u8
    requires { value < 16 }
    ensures { result ≡ hex_digit value }
{
    if value < 10 {
        b'0' + value
    } else {
        b'a' - 10 + value
    }
}

// What fits stands in the memory, and the place tells whether it fitted.
pub fn output_stands() -> u8
    ensures fitting { Fitting }
    ensures told { Told }
{
    0
}
