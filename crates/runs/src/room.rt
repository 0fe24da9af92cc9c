// The memory of a draw.
ghost use Rattle.std.specs.Prelude.{◌≡◌, IfOk};
ghost use Rattle.ceremony.specs.Model.{held};
ghost use Rattle.runs.specs.Rooms.{contents, room_for};

use ceremony::Memory;
use entries::{MOST_NAMES, SLOT};
use seals::{MOST_BITS, record_size};
use std::alloc::{AllocError, Global};

const NAMES: usize = MOST_NAMES as usize;

const SLOTS: usize = SLOT * NAMES;

const BITS: usize = MOST_BITS as usize;

#[derive(Drop)]
pub struct Room {
    slots: Vec<u8>,
    index: Vec<u16>,
    seals: Vec<u8>,
    bits: Vec<u8>,
    order: Vec<u16>,
}

impl Room {
    // Room for the longest list, and for the most bits of so many parties; all of it zeros.
    pub fn new(heap: Global, parties: u8) -> Result<Room, AllocError>
        ensures { IfOk result (λ m. contents m ≡ room_for parties) }
    {
        let slots = vec![in heap; 0u8; SLOTS]?;
        let index = vec![in heap; 0u16; NAMES]?;
        let seals = vec![in heap; 0u8; record_size(MOST_BITS) * parties as usize]?;
        let bits = vec![in heap; 0u8; BITS]?;
        let order = vec![in heap; 0u16; NAMES]?;
        Ok(Room {
            slots,
            index,
            seals,
            bits,
            order,
        })
    }

    pub fn lend(&mut self) -> Memory<'_>
        ensures { held result ≡ contents self.old }
    {
        Memory {
            slots: self.slots.as_mut_slice(),
            index: self.index.as_mut_slice(),
            seals: self.seals.as_mut_slice(),
            bits: self.bits.as_mut_slice(),
            order: self.order.as_mut_slice(),
        }
    }
}
