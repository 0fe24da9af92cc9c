// What is told of a protocol: accepted, and what it says of its draw; or why it was not.
ghost use Rattle.std.specs.Prelude.{◌≡◌, IfOk, vec_items, string_bytes};
ghost use Rattle.protocol.specs.declared.verdict.CheckError.TheVariants.{Refused, NoMemory};
ghost use Rattle.std.specs.Option.{option_map};
ghost use Rattle.texts.specs.Lines.{summary_lines};

use refusals::Refusal;
use std::alloc::{AllocError, Global};
use texts::Summary;

// The numbers of names, of parties and of those that opened, and the order if there is one.
#[derive(Drop)]
pub struct Accepted {
    pub names: u16,
    pub parties: u8,
    pub opened: u8,
    pub order: Option<Vec<u16>>,
}

impl Accepted {
    // The two lines that the draw ends with.
    pub(crate) fn text(&self, heap: Global) -> Result<String, AllocError>
        ensures { IfOk result (λ s. string_bytes s ≡ summary_lines self.now.names self.now.parties self.now.opened (option_map vec_items self.now.order)) }
    {
        Summary {
            names: self.names,
            parties: self.parties,
            opened: self.opened,
            order: self.order.as_deref(),
        }
        .text(heap)
    }
}

// The protocol is refused, or there was no memory to check it.
#[derive(Clone, Copy, Debug, PartialEq, Eq)]
pub enum CheckError {
    Refused(Refusal),
    NoMemory(AllocError),
}

impl From<Refusal> for CheckError {
    ghost from_gives = { λ why e. e ≡ Refused why };

    fn from(why: Refusal) -> CheckError {
        CheckError::Refused(why)
    }
}

impl From<AllocError> for CheckError {
    ghost from_gives = { λ none e. e ≡ NoMemory none };

    fn from(none: AllocError) -> CheckError {
        CheckError::NoMemory(none)
    }
}
