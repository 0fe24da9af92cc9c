// The parties of a protocol, one after another: a seal, one byte 1 if the party opened, and its opening if it did.
ghost use Rattle.std.specs.Prelude.{◌≡◌, ◌+◌, ◌*◌, ◌^◌, ◌<◌, ◌≤◌, slice_index};
ghost use Rattle.protocol.specs.Layout.{bits_length, party_at, party_of, opened_in, opening_size};
ghost use Rattle.std.specs.Iterator.{YieldsFirstBy, item_count};
ghost use Rattle.std.specs.Option.{option_map};

use parts::{byte_at, part};
use seals::{SALT, SEAL};

// A party by its number and its place, whether or not the bytes go so far; and how many bytes each party puts in.
#[derive(Clone, Copy)]
pub(crate) struct Party<'a> {
    pub bytes: &'a [u8],
    pub length: u16,
    pub number: u8,
    pub at: usize,
    ghost bits: { length ≡ bits_length bytes.now },
    ghost placed: { at ≡ party_at bytes.now number },
    ghost near: { at ≤ 2 ^ 32 + 65600 * number },
}

impl<'a> Party<'a> {
    // The place of the byte that tells whether it opened.
    pub(crate) fn mark_at(&self) -> usize
        ensures { result ≡ party_at self.now.bytes.now self.now.number + 32 }
    {
        self.at + SEAL
    }

    pub(crate) fn mark(&self) -> u8
        ensures { result ≡ slice_index self.now.bytes.now (party_at self.now.bytes.now self.now.number + 32) }
    {
        byte_at(self.bytes, self.mark_at())
    }

    pub(crate) fn has_opened(&self) -> bool
        ensures { result ≡ opened_in self.now.bytes.now self.now.number }
    {
        self.mark() == 1
    }

    pub(crate) fn seal(&self) -> &'a [u8]
        ensures { result.now ≡ (party_of self.now.bytes.now self.now.number).seal }
    {
        part(self.bytes, self.at, SEAL)
    }

    pub(crate) fn opening(&self) -> Option<&'a [u8]>
        ensures { option_map (λ x. x.now) result ≡ (party_of self.now.bytes.now self.now.number).opening }
    {
        if !self.has_opened() {
            return None;
        }
        Some(part(self.bytes, self.mark_at() + 1, self.opening_size()))
    }

    // How many bytes stand behind the byte that tells whether it opened.
    fn opening_size(&self) -> usize
        ensures { result ≡ opening_size (slice_index self.now.bytes.now (party_at self.now.bytes.now self.now.number + 32)) (bits_length self.now.bytes.now) }
    {
        if !self.has_opened() {
            return 0;
        }
        SALT + self.length as usize
    }

    #[tactic(auto, using(crate::proofs::Walks::party_more))]
    fn following(&self) -> Party<'a>
        requires { self.now.number < 255 }
        ensures bytes { result.bytes.now ≡ self.now.bytes.now }
        ensures number { result.number ≡ self.now.number + 1 }
    {
        Party {
            bytes: self.bytes,
            length: self.length,
            number: self.number + 1,
            at: self.mark_at() + 1 + self.opening_size(),
        }
    }

    // The party so many further on: each place follows from the one before.
    pub(crate) fn further(&self, parties: u8) -> Party<'a>
        requires { self.now.number + parties < 256 }
        ensures bytes { result.bytes.now ≡ self.now.bytes.now }
        ensures number { result.number ≡ self.now.number + parties }
    {
        let mut party = *self;
        for _k in 0..parties {
            party = party.following();
        }
        party
    }
}

// The parties from one on, up to a number.
#[derive(Drop)]
pub(crate) struct EachParty<'a> {
    pub first: Party<'a>,
    pub end: u8,
}

impl<'a> Iterator for EachParty<'a> {
    type Item = Party<'a>;

    ghost use Rattle.protocol.specs.Walk.{numbered_party, parties_left};

    ghost next_gives = { YieldsFirstBy numbered_party parties_left };

    ghost remaining = { item_count parties_left };

    fn next(&mut self) -> Option<Party<'a>> {
        let party = self.first;
        if party.number >= self.end {
            return None;
        }
        self.first = party.following();
        Some(party)
    }
}
