// Seals and openings. A party's seal is the hash of 32 bytes chosen at will, a context of bytes (the list's hash), one
// byte of the party's number, and the party's bits; its opening is those 32 bytes and the bits.
//
// In lent memory each party has a record, as a protocol has it: its seal, one byte that is 1 once it has opened, and
// room for its opening.
#![tactic(auto)]

ghost use Rattle.std.specs.Prelude.{◌≡◌, ◌+◌, ◌*◌, ◌≤◌, length};
ghost use Rattle.std.proofs.Math.Seq.{paste};
ghost use Rattle.refusals.specs.Answers.{done, number_or};
ghost use Rattle.seals.specs.Seal.{seal_of, TwoOpenings};
ghost use Rattle.seals.specs.Records.{record_size, has_opened, opened_count, seal_in, opening_if};
ghost use Rattle.seals.specs.Steps.{opening_fault};
ghost use Rattle.seals.specs.Taken.{sealed_in, opened_in};
ghost use Rattle.std.specs.Option.{option_map};

use parts::{behind, byte_at, front, part};
use refusals::{Lent, Refusal};
use sha256::Hasher;

pub const SALT: usize = 32;

pub const SEAL: usize = 32;

pub const MOST_PARTIES: u8 = 255;

// How many bytes of bits each party puts in.
pub const LEAST_BITS: u16 = 64;

pub const MOST_BITS: u16 = 8192;

// The parties' records in memory that is only read, where each party puts in `length` bytes.
#[derive(Clone, Copy, Debug)]
pub struct Records<'a> {
    pub bytes: &'a [u8],
    pub length: u16,
    pub count: u8,
}

// The same in memory that is lent for more.
#[derive(Drop)]
pub struct Parties<'a> {
    pub records: &'a mut [u8],
    pub length: u16,
    pub count: u8,
}

// The seal that an opening gives.
pub fn seal(context: &[u8], party: u8, opening: &[u8]) -> [u8; 32]
    ensures { result ≡ seal_of context.now party opening.now }
{
    let salt = front(opening, SALT);
    let mut hasher = Hasher::new();
    hasher.update(salt);
    hasher.update(context);
    hasher.update(&[party]);
    hasher.update(behind(opening, SALT));
    hasher.finish()
}

// How many bytes a record has, where each party puts in `length` bytes.
pub fn record_size(length: u16) -> usize
    ensures { result ≡ record_size length }
{
    SEAL + 1 + SALT + length as usize
}

// The place of a party's record.
fn record_at(length: u16, party: u8) -> usize
    ensures { result ≡ record_size length * party }
{
    record_size(length) * party as usize
}

// Writes bytes over those from a place on.
fn write(records: &mut [u8], at: usize, bytes: &[u8])
    requires { at + length bytes.now ≤ length records.old }
    ensures { records.new ≡ paste records.old at bytes.now (length bytes.now) }
{
    let end = at + bytes.len();
    records[at..end].copy_from_slice(bytes);
}

impl<'a> Records<'a> {
    // The seal of a party, as far as the records go.
    pub fn seal_in(&self, party: u8) -> &'a [u8]
        ensures { result.now ≡ seal_in self.now.bytes.now self.now.length party }
    {
        part(self.bytes, record_at(self.length, party), SEAL)
    }

    // Whether a party has opened.
    pub fn has_opened(&self, party: u8) -> bool
        ensures { result ≡ has_opened self.now.bytes.now self.now.length party }
    {
        byte_at(self.bytes, record_at(self.length, party) + SEAL) != 0
    }

    // The opening of a party, as far as the records go, if it has opened.
    pub fn opening_in(&self, party: u8) -> Option<&'a [u8]>
        ensures { option_map (λ x. x.now) result ≡ opening_if self.now.bytes.now self.now.length party }
    {
        if !self.has_opened(party) {
            return None;
        }
        let at = record_at(self.length, party) + SEAL + 1;
        Some(part(self.bytes, at, SALT + self.length as usize))
    }

    // How many parties have opened.
    pub fn opened_count(&self) -> u8
        ensures is { result ≡ opened_count self.now.bytes.now self.now.length self.now.count }
        ensures few { result ≤ self.now.count }
    {
        (0..self.count)
            .filter(|party| self.has_opened(*party))
            .count() as u8
    }

    // The place at which an opening is to be written, or why it is refused.
    fn place_for(&self, context: &[u8], party: u8, opening: &[u8]) -> Result<usize, Refusal>
        ensures { result ≡ opening_fault self.now.bytes.now self.now.length self.now.count context.now party opening.now }
    {
        if party >= self.count || self.has_opened(party) {
            return Err(Refusal::NoSuchParty(party));
        }
        if opening.len() != SALT + self.length as usize {
            return Err(Refusal::OpeningLength(opening.len()));
        }
        if &seal(context, party, opening)[..] != self.seal_in(party) {
            return Err(Refusal::WrongOpening(party));
        }
        let at = record_at(self.length, party) + SEAL;
        if self.bytes.len() < at + 1 + opening.len() {
            return Err(Refusal::NoRoom(Lent::Seals));
        }
        Ok(at)
    }
}

impl Parties<'_> {
    // The records to be read.
    pub fn records(&self) -> Records<'_>
        ensures bytes { result.bytes.now ≡ self.now.records.now }
        ensures length { result.length ≡ self.now.length }
        ensures count { result.count ≡ self.now.count }
    {
        Records {
            bytes: self.records,
            length: self.length,
            count: self.count,
        }
    }

    // One more seal, with room for its opening; a refusal changes nothing.
    pub fn add(&mut self, seal: &[u8]) -> Result<(), Refusal>
        ensures same_records { self.new.records.ghost_name ≡ self.old.records.ghost_name }
        ensures same_length { self.new.length ≡ self.old.length }
        ensures answer { result ≡ done (sealed_in self.old seal.now).answer }
        ensures count { self.new.count ≡ number_or (sealed_in self.old seal.now).answer self.old.count }
        ensures records { self.new.records.now ≡ (sealed_in self.old seal.now).seals }
    {
        if seal.len() != SEAL {
            return Err(Refusal::SealLength(seal.len()));
        }
        if self.count == MOST_PARTIES {
            return Err(Refusal::TooManySeals);
        }
        let at = record_at(self.length, self.count);
        if self.records.len() < record_at(self.length, self.count + 1) {
            return Err(Refusal::NoRoom(Lent::Seals));
        }
        write(self.records, at, seal);
        self.records[at + SEAL] = 0;
        self.count += 1;
        Ok(())
    }

    // An opening is taken if it gives the party's seal; a refusal changes nothing.
    pub fn open(&mut self, context: &[u8], party: u8, opening: &[u8]) -> Result<(), Refusal>
        ensures same_records { self.new.records.ghost_name ≡ self.old.records.ghost_name }
        ensures same_length { self.new.length ≡ self.old.length }
        ensures same_count { self.new.count ≡ self.old.count }
        ensures answer { result ≡ (opened_in self.old context.now party opening.now).answer }
        ensures records { self.new.records.now ≡ (opened_in self.old context.now party opening.now).seals }
    {
        let at = self.records().place_for(context, party, opening)?;
        self.records[at] = 1;
        write(self.records, at + 1, opening);
        Ok(())
    }
}

// Two different openings of one seal are two different rows of bytes with one hash.
pub fn two_openings_stands() -> u8
    ensures { TwoOpenings }
{
    0
}
