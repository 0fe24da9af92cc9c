// Where the parts of a protocol stand, by its counts and lengths as they stand.
ghost use Rattle.std.specs.Prelude.{◌≡◌, ◌+◌, ◌^◌, ◌<◌, ◌≤◌};
ghost use Rattle.protocol.specs.Check.{shape_fault, hash_of, refused_with};
ghost use Rattle.protocol.specs.Laid.{LaidOut};
ghost use Rattle.protocol.specs.Layout.{bits_length, name_count, party_count, size};
ghost use Rattle.protocol.specs.Walk.{names_left, numbers_between, parties_left};
ghost use Rattle.refusals.specs.declared.Refusal.TheVariants.{ProtocolLength};

use crate::names::{EachName, Name};
use crate::parties::{EachParty, Party};
use crate::words::word_at;
use parts::{byte_at, part};
use refusals::Refusal;

// The bytes of a protocol, and where its parts stand: the number of names; the place of how many bytes each party puts
// in; the number of parties, which stands behind it; the first party, if there is one; and the place of the word whether
// there is an order.
#[derive(Clone, Copy)]
pub(crate) struct Layout<'a> {
    pub bytes: &'a [u8],
    pub name_count: u16,
    pub length_at: usize,
    pub party_count: u8,
    pub first: Party<'a>,
    pub order_at: usize,
    ghost laid_out: { LaidOut bytes.now name_count length_at party_count order_at },
    ghost same_bytes: { first.bytes.now ≡ bytes.now },
    ghost at_first: { first.number ≡ 0 },
}

impl<'a> Layout<'a> {
    pub(crate) fn of(bytes: &'a [u8]) -> Layout<'a>
        ensures { result.bytes.now ≡ bytes.now }
    {
        let name_count = word_at(bytes, 0);
        let length_at = Name::of(bytes, name_count).at;
        let party_count = byte_at(bytes, length_at + 2);
        let first = Party {
            bytes,
            length: word_at(bytes, length_at),
            number: 0,
            at: length_at + 3,
        };
        Layout {
            bytes,
            name_count,
            length_at,
            party_count,
            first,
            order_at: first.further(party_count).at,
        }
    }

    // How many bytes each party puts in.
    pub(crate) fn length(&self) -> u16
        ensures { result ≡ bits_length self.now.bytes.now }
    {
        self.first.length
    }

    // The party of a number, as its place is counted.
    pub(crate) fn party(&self, number: u8) -> Party<'a>
        ensures bytes { result.bytes.now ≡ self.now.bytes.now }
        ensures number { result.number ≡ number }
    {
        self.first.further(number)
    }

    pub(crate) fn each_name(&self) -> EachName<'a>
        ensures { names_left result ≡ numbers_between self.now.bytes.now 0 (name_count self.now.bytes.now) }
    {
        EachName {
            first: Name::first(self.bytes),
            end: self.name_count,
        }
    }

    pub(crate) fn each_party(&self) -> EachParty<'a>
        ensures { parties_left result ≡ numbers_between self.now.bytes.now 0 (party_count self.now.bytes.now) }
    {
        EachParty {
            first: self.first,
            end: self.party_count,
        }
    }

    // The hash of the list: of the names' bytes as they stand.
    pub(crate) fn list_hash(&self) -> [u8; 32]
        ensures { result ≡ hash_of self.now.bytes.now }
    {
        sha256::hash(part(self.bytes, 2, self.length_at - 2))
    }

    // How many bytes the protocol has by its counts and lengths.
    #[tactic(auto, unfolding(crate::specs::Layout::size))]
    fn size(&self) -> usize
        ensures { result ≡ size self.now.bytes.now }
    {
        let order = self.order_at + 1;
        if byte_at(self.bytes, self.order_at) != 1 {
            return order;
        }
        order + 2 * self.name_count as usize
    }

    // The first pass: where the protocol ends too early, its length is told; where it goes on, the first place too many.
    pub(crate) fn check_shape(&self) -> Result<(), Refusal>
        ensures { result ≡ refused_with ProtocolLength (shape_fault self.now.bytes.now) }
    {
        let size = self.size();
        if self.bytes.len() < size {
            return Err(Refusal::ProtocolLength(self.bytes.len()));
        }
        if size < self.bytes.len() {
            return Err(Refusal::ProtocolLength(size));
        }
        Ok(())
    }
}
