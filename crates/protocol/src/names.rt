// The names of a protocol, one after another: a byte of the name's length, and the name.
ghost use Rattle.std.specs.Prelude.{◌≡◌, ◌+◌, ◌*◌, ◌<◌, ◌≤◌, slice_index};
ghost use Rattle.protocol.specs.Layout.{name_at, name_of};
ghost use Rattle.std.specs.Iterator.{YieldsFirstBy, item_count};

use parts::{byte_at, part};

// A name by its number and its place, whether or not the bytes go so far.
#[derive(Clone, Copy)]
pub(crate) struct Name<'a> {
    pub bytes: &'a [u8],
    pub number: u16,
    pub at: usize,
    ghost placed: { at ≡ name_at bytes.now number },
    ghost behind: { 2 ≤ at },
    ghost near: { at ≤ 2 + 256 * number },
}

impl<'a> Name<'a> {
    #[tactic(auto, unfolding(crate::specs::Layout::name_at))]
    pub(crate) fn first(bytes: &'a [u8]) -> Name<'a>
        ensures bytes { result.bytes.now ≡ bytes.now }
        ensures number { result.number ≡ 0 }
    {
        Name {
            bytes,
            number: 0,
            at: 2,
        }
    }

    // The name of a number, found by going from one to the next: each place follows from the one before.
    pub(crate) fn of(bytes: &'a [u8], number: u16) -> Name<'a>
        ensures bytes { result.bytes.now ≡ bytes.now }
        ensures number { result.number ≡ number }
    {
        let mut name = Name::first(bytes);
        for _k in 0..number {
            name = name.following();
        }
        name
    }

    // The byte of its length.
    pub(crate) fn length(&self) -> u8
        ensures { result ≡ slice_index self.now.bytes.now (name_at self.now.bytes.now self.now.number) }
    {
        byte_at(self.bytes, self.at)
    }

    pub(crate) fn text(&self) -> &'a [u8]
        ensures { result.now ≡ name_of self.now.bytes.now self.now.number }
    {
        part(self.bytes, self.at + 1, self.length() as usize)
    }

    #[tactic(auto, using(crate::proofs::Walks::name_more))]
    fn following(&self) -> Name<'a>
        requires { self.now.number < 65535 }
        ensures bytes { result.bytes.now ≡ self.now.bytes.now }
        ensures number { result.number ≡ self.now.number + 1 }
    {
        Name {
            bytes: self.bytes,
            number: self.number + 1,
            at: self.at + 1 + self.length() as usize,
        }
    }
}

// The names from one on, up to a number.
#[derive(Drop)]
pub(crate) struct EachName<'a> {
    pub first: Name<'a>,
    pub end: u16,
}

impl<'a> Iterator for EachName<'a> {
    type Item = Name<'a>;

    ghost use Rattle.protocol.specs.Walk.{names_left, numbered_name};

    ghost next_gives = { YieldsFirstBy numbered_name names_left };

    ghost remaining = { item_count names_left };

    fn next(&mut self) -> Option<Name<'a>> {
        let name = self.first;
        if name.number >= self.end {
            return None;
        }
        self.first = name.following();
        Some(name)
    }
}
