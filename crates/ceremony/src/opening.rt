// The third phase: openings are taken, each added to the sum, until the final close.
ghost use Rattle.std.specs.Prelude.{◌≡◌};
ghost use Rattle.ceremony.specs.Model.{as_opened, as_ended, Passed};
ghost use Rattle.ceremony.specs.Steps.{opening_step, may_draw, final_close};

use crate::closed::Closed;
use crate::finished::Finished;
use refusals::{Lent, Missing, Refusal};
use seals::SALT;
use sum::add;

#[derive(Drop)]
pub struct Opening<'a> {
    pub(crate) closed: Closed<'a>,
}

impl<'a> Opening<'a> {
    // An opening: the party's number, and then its 32 bytes and its bits.
    pub fn open(&mut self, bytes: &[u8]) -> Result<(), Refusal>
        ensures state { as_opened self.new ≡ (opening_step (as_opened self.old) bytes.now).0 }
        ensures answer { result ≡ (opening_step (as_opened self.old) bytes.now).1 }
    {
        let Some((party, opening)) = bytes.split_first() else {
            return Err(Refusal::OpeningLength(0));
        };
        let closed = &mut self.closed;
        closed.parties.open(&closed.hash, *party, opening)?;
        let (_, row) = opening.split_at(SALT);
        add(closed.bits, row);
        Ok(())
    }

    // The final close draws the order from the sum.
    pub fn close(self) -> Result<Finished<'a>, (Opening<'a>, Refusal)>
        ensures { Passed as_opened as_ended (as_opened self.entry) (final_close (as_opened self.entry)) result }
    {
        match self.may_draw() {
            Ok(()) => Ok(Finished::draw(self.closed)),
            Err(why) => Err((self, why)),
        }
    }

    // Whether the order may be drawn; room was asked for when the list was closed.
    fn may_draw(&self) -> Result<(), Refusal>
        ensures { result ≡ may_draw (as_opened self.now) }
    {
        let closed = &self.closed;
        if closed.parties.records().opened_count() == 0 {
            return Err(Refusal::Nothing(Missing::Opening));
        }
        if closed.bits.len() < closed.parties.length as usize {
            return Err(Refusal::NoRoom(Lent::Bits));
        }
        if closed.order.len() < closed.list.count as usize {
            return Err(Refusal::NoRoom(Lent::Order));
        }
        Ok(())
    }
}
