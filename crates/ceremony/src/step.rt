// A draw in any of its phases, and one step of it.
ghost use Rattle.std.specs.Prelude.{◌≡◌};
ghost use Rattle.ceremony.specs.Draws.{State, closed_list, listing, sealing, opening, ended, state, step, why};
ghost use Rattle.step_file.specs.Kinds.{kind_number};
ghost use Rattle.ceremony.specs.Model.{as_listed, as_sealed, as_opened, as_ended};

use crate::entering::Listing;
use crate::finished::Finished;
use crate::memory::ClosedList;
use crate::opening::Opening;
use crate::sealing::Sealing;
use refusals::Refusal;
use step_file::Kind;

#[derive(Drop)]
pub enum Draw<'a> {
    Listing(Listing<'a>),
    Sealing(Sealing<'a>),
    Opening(Opening<'a>),
    Finished(Finished<'a>),
}

// A step in each phase. They are alike, but each has its own kinds, its own next phase and its own refusals: one function
// for all three would take more functions than it has lines. Kind and bytes come apart: a step of a file has its kind as a
// byte, which may be none of these.
fn in_listing<'a>(mut s: Listing<'a>, kind: Kind, bytes: &[u8]) -> (Draw<'a>, Result<(), Refusal>)
    ensures state { state result.0 ≡ (step (listing (as_listed s.entry)) (kind_number kind) bytes.now).0 }
    ensures answer { why result.1 ≡ (step (listing (as_listed s.entry)) (kind_number kind) bytes.now).1 }
{
    match kind {
        Kind::Entry => {
            let answer = s.enter(bytes);
            (Draw::Listing(s), answer)
        }
        Kind::CloseList => match s.close(bytes) {
            Ok(next) => (Draw::Sealing(next), Ok(())),
            Err((s, why)) => (Draw::Listing(s), Err(why)),
        },
        _ => (Draw::Listing(s), Err(Refusal::WrongTime)),
    }
}

fn in_sealing<'a>(mut s: Sealing<'a>, kind: Kind, bytes: &[u8]) -> (Draw<'a>, Result<(), Refusal>)
    ensures state { state result.0 ≡ (step (sealing (as_sealed s.entry)) (kind_number kind) bytes.now).0 }
    ensures answer { why result.1 ≡ (step (sealing (as_sealed s.entry)) (kind_number kind) bytes.now).1 }
{
    match kind {
        Kind::Seal => {
            let answer = s.seal(bytes);
            (Draw::Sealing(s), answer)
        }
        Kind::CloseSeals => match s.close() {
            Ok(next) => (Draw::Opening(next), Ok(())),
            Err((s, why)) => (Draw::Sealing(s), Err(why)),
        },
        _ => {
            let why = s.closed.out_of_time(kind, bytes);
            (Draw::Sealing(s), Err(why))
        }
    }
}

fn in_opening<'a>(mut s: Opening<'a>, kind: Kind, bytes: &[u8]) -> (Draw<'a>, Result<(), Refusal>)
    ensures state { state result.0 ≡ (step (opening (as_opened s.entry)) (kind_number kind) bytes.now).0 }
    ensures answer { why result.1 ≡ (step (opening (as_opened s.entry)) (kind_number kind) bytes.now).1 }
{
    match kind {
        Kind::Opening => {
            let answer = s.open(bytes);
            (Draw::Opening(s), answer)
        }
        Kind::Close => match s.close() {
            Ok(next) => (Draw::Finished(next), Ok(())),
            Err((s, why)) => (Draw::Opening(s), Err(why)),
        },
        _ => {
            let why = s.closed.out_of_time(kind, bytes);
            (Draw::Opening(s), Err(why))
        }
    }
}

impl<'a> Draw<'a> {
    // What is known of the list, once it is closed.
    pub fn closed_list(&self) -> Option<ClosedList>
        ensures { result ≡ closed_list (state self.now) }
    {
        match self {
            Draw::Listing(_) => None,
            Draw::Sealing(s) => Some(s.closed.closed_list()),
            Draw::Opening(s) => Some(s.closed.closed_list()),
            Draw::Finished(s) => Some(s.closed.closed_list()),
        }
    }

    // One step of the draw: the state after it, and why it was refused if it was. The draw goes by value, since a closing
    // leaves no phase behind that a reference could hold meanwhile.
    #[tactic(auto, using(crate::proofs::UnknownKinds::unknown))]
    pub fn step(self, kind: u8, bytes: &[u8]) -> (Draw<'a>, Result<(), Refusal>)
        ensures state { state result.0 ≡ (step (state self.entry) kind bytes.now).0 }
        ensures answer { why result.1 ≡ (step (state self.entry) kind bytes.now).1 }
    {
        let Ok(kind) = Kind::try_from(kind) else {
            return (self, Err(Refusal::WrongTime));
        };
        match self {
            Draw::Listing(s) => in_listing(s, kind, bytes),
            Draw::Sealing(s) => in_sealing(s, kind, bytes),
            Draw::Opening(s) => in_opening(s, kind, bytes),
            Draw::Finished(s) => {
                let why = s.closed.out_of_time(kind, bytes);
                (Draw::Finished(s), Err(why))
            }
        }
    }
}
