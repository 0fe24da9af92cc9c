// The second phase: seals are taken until the seals are closed.
ghost use Rattle.std.specs.Prelude.{◌≡◌};
ghost use Rattle.ceremony.specs.Model.{as_sealed, as_opened, Passed};
ghost use Rattle.ceremony.specs.Steps.{seal_step, seals_close};

use crate::closed::Closed;
use crate::opening::Opening;
use refusals::{Missing, Refusal};

#[derive(Drop)]
pub struct Sealing<'a> {
    pub(crate) closed: Closed<'a>,
}

impl<'a> Sealing<'a> {
    pub fn seal(&mut self, seal: &[u8]) -> Result<(), Refusal>
        ensures state { as_sealed self.new ≡ (seal_step (as_sealed self.old) seal.now).0 }
        ensures answer { result ≡ (seal_step (as_sealed self.old) seal.now).1 }
    {
        self.closed.parties.add(seal)
    }

    // Closes the seals: from here on no more are taken, and openings begin.
    pub fn close(self) -> Result<Opening<'a>, (Sealing<'a>, Refusal)>
        ensures { Passed as_sealed as_opened (as_sealed self.entry) (seals_close (as_sealed self.entry)) result }
    {
        if self.closed.parties.count == 0 {
            return Err((self, Refusal::Nothing(Missing::Seal)));
        }
        Ok(Opening {
            closed: self.closed,
        })
    }
}
