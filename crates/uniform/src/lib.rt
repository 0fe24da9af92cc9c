// Numbers below n drawn from the bits of bytes, with none favoured. Bits are read byte by byte, the highest of a byte
// first. With w the least number with n at most 2^w, w bits are read as a number, the first one the highest; a number
// not below n is thrown away, and w bits are read again.
#![tactic(auto)]

ghost use Rattle.std.specs.Prelude.{◌≡◌, ◌+◌, ◌-◌, ◌*◌, ◌^◌, ◌<◌, ◌≤◌, length, drop, IfSome, IsNone, MatchOption};
ghost use Rattle.std.specs.Option.{option_map};
ghost use Rattle.uniform.specs.Bits.{bits};
ghost use Rattle.uniform.specs.Draws.{width, number, drawn_at};

use parts::byte_at;

// A place of a bit is a `usize`, so rows of this many bytes and more have bits without a place.
const TOO_LONG: usize = 1 << 61;

// The bits of bytes, read on from a place.
#[derive(Drop)]
pub struct BitReader<'a> {
    pub bytes: &'a [u8],
    pub at: usize,
    pub ghost placed: { length bytes.now < 2 ^ 61 },
}

impl<'a> BitReader<'a> {
    // The bits from a place on, or none of bytes so many that their bits have no place.
    pub fn new(bytes: &'a [u8], at: usize) -> Option<Self>
        ensures { MatchOption result (2 ^ 61 ≤ length bytes.now) (λ bits. (bits.bytes.now ≡ bytes.now) × (bits.at ≡ at)) }
    {
        if bytes.len() < TOO_LONG {
            Some(BitReader { bytes, at })
        } else {
            None
        }
    }

    // A number below n from the bits that come next; or none where the bits run out, and then they are still to come. The
    // place is moved by hand: no iterator of the library goes on by a width that is known only here.
    pub fn draw_below(&mut self, n: u16) -> Option<u16>
        ensures is { option_map (λ k. (k, self.new.at)) result ≡ drawn_at (bits self.old.bytes.now) self.old.at n }
        ensures below { IfSome result (λ k. k < n) }
        ensures out { IsNone result → self.new.at ≡ self.old.at }
        ensures same { self.new.bytes ≡ self.old.bytes }
    {
        if n == 0 {
            return None;
        }
        let w = bit_width(n);
        let mut at = self.at;
        while let Some(value) = read(self.bytes, at, w) {
            at += w as usize;
            if value < n {
                self.at = at;
                return Some(value);
            }
        }
        None
    }
}

// How many bits a number below n needs: the least w with n at most 2^w.
fn bit_width(n: u16) -> u32
    ensures is { result ≡ width n }
    ensures small { result ≤ 16 }
{
    16 - n.saturating_sub(1).leading_zeros()
}

// The w bits from a place on as a number, or none where fewer are left. They lie in three bytes at most.
fn read(bytes: &[u8], at: usize, w: u32) -> Option<u16>
    requires few { w ≤ 16 }
    requires placed { length bytes.now < 2 ^ 61 }
    ensures { MatchOption result (8 * length bytes.now - at < w) (λ v. (w ≤ 8 * length bytes.now - at) × (v ≡ number w 0 (drop at (bits bytes.now)))) }
{
    if (8 * bytes.len()).saturating_sub(at) < w as usize {
        return None;
    }
    let first = at / 8;
    let skip = (at % 8) as u32;
    let three = u32::from_be_bytes([
        0,
        byte_at(bytes, first),
        byte_at(bytes, first + 1),
        byte_at(bytes, first + 2),
    ]);
    Some(((three >> (24 - skip - w)) & ((1 << w) - 1)) as u16)
}
