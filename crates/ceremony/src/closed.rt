// What a draw holds once its list is closed.
ghost use Rattle.std.specs.Prelude.{◌≡◌};
ghost use Rattle.ceremony.specs.Draws.{out_of_time};
ghost use Rattle.step_file.specs.Kinds.{kind_number};
ghost use Rattle.ceremony.specs.Model.{sealed};

use crate::memory::ClosedList;
use entries::NameList;
use refusals::Refusal;
use seals::Parties;
use step_file::Kind;

// `bits` is the sum so far, and `order` the order once it is drawn.
#[derive(Drop)]
pub struct Closed<'a> {
    pub list: NameList<'a>,
    pub hash: [u8; 32],
    pub parties: Parties<'a>,
    pub bits: &'a mut [u8],
    pub order: &'a mut [u16],
}

impl Closed<'_> {
    pub fn closed_list(&self) -> ClosedList
        ensures { result ≡ (sealed self.now).list }
    {
        ClosedList {
            count: self.list.count,
            length: self.parties.length,
            hash: self.hash,
        }
    }

    // Why a step is refused that comes out of its time: an entry for what is wrong with it first.
    pub fn out_of_time(&self, kind: Kind, bytes: &[u8]) -> Refusal
        ensures { result ≡ out_of_time (sealed self.now).held self.now.list.count (kind_number kind) bytes.now }
    {
        match kind {
            Kind::Entry => self
                .list
                .names()
                .place_for(bytes)
                .err()
                .unwrap_or(Refusal::WrongTime),
            _ => Refusal::WrongTime,
        }
    }
}
