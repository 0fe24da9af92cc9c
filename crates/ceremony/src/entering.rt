// The first phase: entries are taken until the list is closed.
ghost use Rattle.std.specs.Prelude.{◌≡◌, length};
ghost use Rattle.ceremony.specs.Model.{held, as_listed, as_sealed, no_entries, Passed};
ghost use Rattle.ceremony.specs.Steps.{entry_step, length_given, list_close};

use crate::closed::Closed;
use crate::memory::Memory;
use crate::sealing::Sealing;
use entries::NameList;
use refusals::{Lent, Missing, Refusal};
use seals::{LEAST_BITS, MOST_BITS, Parties};

#[derive(Drop)]
pub struct Listing<'a> {
    pub(crate) list: NameList<'a>,
    pub(crate) seals: &'a mut [u8],
    pub(crate) bits: &'a mut [u8],
    pub(crate) order: &'a mut [u16],
}

impl<'a> Listing<'a> {
    // A draw before its first entry. What the memory holds is of no account.
    pub fn begin(memory: Memory<'a>) -> Listing<'a>
        ensures { as_listed result ≡ no_entries (held memory.entry) }
    {
        let Memory {
            slots,
            index,
            seals,
            bits,
            order,
        } = memory;
        let list = NameList {
            slots,
            index,
            count: 0,
        };
        Listing {
            list,
            seals,
            bits,
            order,
        }
    }

    pub fn enter(&mut self, name: &[u8]) -> Result<(), Refusal>
        ensures state { as_listed self.new ≡ (entry_step (as_listed self.old) name.now).0 }
        ensures answer { result ≡ (entry_step (as_listed self.old) name.now).1 }
    {
        self.list.enter(name)
    }

    // Closes the list; `bytes` say how many bytes each party is to put in.
    pub fn close(self, bytes: &[u8]) -> Result<Sealing<'a>, (Listing<'a>, Refusal)>
        ensures { Passed as_listed as_sealed (as_listed self.entry) (list_close (as_listed self.entry) bytes.now) result }
    {
        let length = match self.length_given(bytes) {
            Ok(length) => length,
            Err(why) => return Err((self, why)),
        };
        let Listing {
            list,
            seals,
            bits,
            order,
        } = self;
        let hash = list.names().hash();
        bits[0..length as usize].fill(0);
        let parties = Parties {
            records: seals,
            length,
            count: 0,
        };
        Ok(Sealing {
            closed: Closed {
                list,
                hash,
                parties,
                bits,
                order,
            },
        })
    }

    // How many bytes each party is to put in, if the list may close with that; all room that the draw will want is asked
    // for here, so that it cannot fail at its end.
    fn length_given(&self, bytes: &[u8]) -> Result<u16, Refusal>
        ensures { result ≡ length_given (as_listed self.now) bytes.now }
    {
        let [low, high] = bytes else {
            return Err(Refusal::BitsLength);
        };
        let length = u16::from_le_bytes([*low, *high]);
        if length < LEAST_BITS || length > MOST_BITS {
            return Err(Refusal::BitsLength);
        }
        if self.list.count == 0 {
            return Err(Refusal::Nothing(Missing::Entry));
        }
        if self.bits.len() < length as usize {
            return Err(Refusal::NoRoom(Lent::Bits));
        }
        if self.order.len() < self.list.count as usize {
            return Err(Refusal::NoRoom(Lent::Order));
        }
        Ok(length)
    }
}
