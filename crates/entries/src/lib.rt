// The entries of a draw: names in lent memory, and the list of them, sorted by bytes.
//
// A name stands in a slot of 65 bytes, one byte of its length and then its bytes, in the order of arrival; the index
// beside the slots holds their numbers in the order of the list. So only numbers of two bytes move when a name comes
// in, and its place is found by halving.
#![tactic(auto)]

ghost use Rattle.std.specs.Prelude.{◌≡◌, ◌+◌, ◌<◌, ◌≤◌, List, [], map, length, take, IfSome, IfOk, slice_index_or};
ghost use Rattle.std.proofs.Math.Seq.{paste};
ghost use Rattle.refusals.specs.Answers.{done, number_or};
ghost use Rattle.entries.specs.Rows.{name_in, packed, packed_rows, list_hash};
ghost use Rattle.entries.specs.Place.{place, place_for};
ghost use Rattle.entries.specs.Entry.{slot_for, inserted_number};
ghost use Rattle.entries.specs.Lists.{names_listed, entered_list};
ghost use Rattle.sha256.specs.Sha256.{sha256};

use parts::{byte_at, part};
use refusals::{Lent, Refusal};
use sha256::Hasher;
use std::cmp::Ordering;

pub const MOST_NAMES: u16 = 2000;

pub const LONGEST_NAME: usize = 64;

pub const SLOT: usize = 1 + LONGEST_NAME;

// The list of names, in memory that is only read. A name lies in the slots alone, so it outlives what is lent of the index.
#[derive(Clone, Copy, Debug)]
pub struct Names<'s, 'i> {
    pub slots: &'s [u8],
    pub index: &'i [u16],
    pub count: u16,
}

// The list of names, in memory that is lent to it for more.
#[derive(Drop)]
pub struct NameList<'a> {
    pub slots: &'a mut [u8],
    pub index: &'a mut [u16],
    pub count: u16,
}

// The name in a slot, as a part of the bytes.
fn name_in(slots: &[u8], slot: u16) -> &[u8]
    ensures is { result.now ≡ name_in slots.now slot }
    ensures short { length result.now < 256 }
{
    let at = SLOT * slot as usize;
    part(slots, at + 1, byte_at(slots, at) as usize)
}

// Where a name belongs among those listed, or none where it is there. The halving is by hand: it answers for every
// memory, and the library's search promises no place in a list that is not sorted.
fn find(slots: &[u8], numbers: &[u16], name: &[u8]) -> Option<usize>
    ensures is { result ≡ place (map (name_in slots.now) numbers.now) name.now }
    ensures within { IfSome result (λ at. at ≤ length numbers.now) }
{
    let mut low = 0;
    let mut high = numbers.len();
    while low < high {
        let middle = low + (high - low) / 2;
        match name_in(slots, numbers[middle]).cmp(&name) {
            Ordering::Less => low = middle + 1,
            Ordering::Equal => return None,
            Ordering::Greater => high = middle,
        }
    }
    Some(low)
}

// Writes a name into its slot, after its length.
fn write_name(slots: &mut [u8], slot: usize, name: &[u8])
    requires room { slot + 1 + length name.now ≤ length slots.old }
    requires short { length name.now ≤ 64 }
    ensures { slots.new ≡ paste slots.old slot (packed name.now) (1 + length name.now) }
{
    let length = name.len();
    let from = slot + 1;
    let end = from + length;
    slots[slot] = length as u8;
    slots[from..end].copy_from_slice(name);
}

// Puts the number of a new slot into the index.
fn insert_number(index: &mut [u16], count: u16, at: usize)
    requires within { at ≤ count }
    requires room { count < length index.old }
    ensures { index.new ≡ inserted_number index.old count at }
{
    let end = count as usize;
    index[end] = count;
    index[at..=end].rotate_right(1);
}

// The hash of names one after another, each after one byte of its length.
fn hash_names(slots: &[u8], numbers: &[u16]) -> [u8; 32]
    ensures { result ≡ sha256 (packed_rows (map (name_in slots.now) numbers.now)) }
{
    let mut hasher = Hasher::new();
    for slot in numbers {
        let name = name_in(slots, *slot);
        hasher.update(&[name.len() as u8]);
        hasher.update(name);
    }
    hasher.finish()
}

impl<'s, 'i> Names<'s, 'i> {
    // How many names are listed.
    pub fn len(&self) -> u16
        ensures { result ≡ length (names_listed self.now) }
    {
        self.index.len().min(self.count as usize) as u16
    }

    // The slots' numbers in the order of the list.
    fn numbers(&self) -> &'i [u16]
        ensures { result.now ≡ take self.now.count self.now.index.now }
    {
        &self.index[..self.len() as usize]
    }

    // The place at which a new name goes into the list, or why it is refused.
    pub fn place_for(&self, name: &[u8]) -> Result<usize, Refusal>
        ensures is { result ≡ place_for self.now.slots.now self.now.index.now self.now.count name.now }
        ensures within { IfOk result (λ at. at ≤ self.now.count) }
    {
        let length = name.len();
        if length == 0 || length > LONGEST_NAME {
            return Err(Refusal::NameLength(length));
        }
        if self.count >= MOST_NAMES {
            return Err(Refusal::NameTaken);
        }
        find(self.slots, self.numbers(), name).ok_or(Refusal::NameTaken)
    }

    // Name number `number` of the list, as a part of the bytes; none of that number is no bytes.
    pub fn name(&self, number: u16) -> &'s [u8]
        ensures is { result.now ≡ slice_index_or (map (name_in self.now.slots.now) self.now.index.now) number [] }
        ensures short { length result.now < 256 }
    {
        match self.index.get(number as usize) {
            Some(slot) => name_in(self.slots, *slot),
            None => &self.slots[..0],
        }
    }

    // The hash of the list.
    pub fn hash(&self) -> [u8; 32]
        ensures { result ≡ list_hash self.now.slots.now self.now.index.now self.now.count }
    {
        hash_names(self.slots, self.numbers())
    }
}

impl NameList<'_> {
    // The list to be read.
    pub fn names(&self) -> Names<'_, '_>
        ensures slots { result.slots.now ≡ self.now.slots.now }
        ensures index { result.index.now ≡ self.now.index.now }
        ensures count { result.count ≡ self.now.count }
    {
        Names {
            slots: self.slots,
            index: self.index,
            count: self.count,
        }
    }

    // Where the next slot begins, if there is room for it and its number.
    fn next_slot(&self) -> Option<usize>
        ensures { result ≡ slot_for (length self.now.slots.now) (length self.now.index.now) self.now.count }
    {
        let count = self.count as usize;
        let slot = SLOT * count;
        if self.slots.len() < slot + SLOT || self.index.len() <= count {
            return None;
        }
        Some(slot)
    }

    // One entry into the list; a refusal changes nothing.
    pub fn enter(&mut self, name: &[u8]) -> Result<(), Refusal>
        ensures same_slots { self.new.slots.ghost_name ≡ self.old.slots.ghost_name }
        ensures same_index { self.new.index.ghost_name ≡ self.old.index.ghost_name }
        ensures answer { result ≡ done (entered_list self.old name.now).answer }
        ensures count { self.new.count ≡ number_or (entered_list self.old name.now).answer self.old.count }
        ensures slots { self.new.slots.now ≡ (entered_list self.old name.now).slots }
        ensures index { self.new.index.now ≡ (entered_list self.old name.now).index }
    {
        let at = self.names().place_for(name)?;
        let slot = self.next_slot().ok_or(Refusal::NoRoom(Lent::List))?;
        write_name(self.slots, slot, name);
        insert_number(self.index, self.count, at);
        self.count += 1;
        Ok(())
    }
}
