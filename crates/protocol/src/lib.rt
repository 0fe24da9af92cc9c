// The protocol of a draw: a finished draw written as bytes, and a protocol that anyone may have written checked.
//
// Numbers have two bytes, low byte first, but for those of parties and lengths of names, which have one. There stand the
// number of names; the names, each after its length; how many bytes each party puts in; the number of parties; for each
// party its seal of 32 bytes, one byte 1 if it opened, else 0, and if it opened its 32 bytes and its bits; one byte 1 if
// there is an order, else 0, and if there is one the order as numbers of the list.
#![tactic(auto)]

ghost use Rattle.std.specs.Prelude.{◌≡◌, is_ok, IfSome, IfOk};
ghost use Rattle.std.specs.Option.{option_copied};
ghost use Rattle.protocol.specs.Check.{answered, verdict, early_fault, refused_for};
ghost use Rattle.protocol.specs.Draws.{AcceptsDrawn, AcceptsOnlyDrawn};
ghost use Rattle.protocol.specs.Finished.{protocol_held};
ghost use Rattle.protocol.specs.Numbers.{bits_used};
ghost use Rattle.protocol.specs.Protocol.{written};
ghost use Rattle.protocol.specs.Texts.{verdict_text, is_accepted, answered_text, RepeatsDrawn, RepeatsOnlyDrawn};

use entries::Names;
use layout::Layout;
use refusals::Refusal;
use seals::Records;
use std::alloc::{AllocError, Global};
use words::write_word;
use writing::{write_names, write_order, write_parties};

mod by_number;
mod layout;
mod names;
mod openings;
mod orders;
mod parties;
mod ranges;
mod sums;
mod verdict;
mod words;
mod writing;

pub use by_number::{bits_length, has_opened, list_hash, name};
pub use verdict::{Accepted, CheckError};

// Checks a protocol in four passes: its shape, its ranges, its seals, its order. It takes memory for what is in the
// protocol only, whatever its counts claim.
pub fn check(heap: Global, protocol: &[u8]) -> Result<Accepted, CheckError>
    ensures is { IfSome (answered result) (λ v. v ≡ verdict protocol.now) }
    ensures drawn { IfSome (answered result) (AcceptsDrawn protocol.now) }
    ensures only { IfSome (answered result) (AcceptsOnlyDrawn protocol.now) }
{
    let layout = Layout::of(protocol);
    check_early(&layout)?;
    let drawn = orders::draw(heap, &layout)?;
    orders::check_order(&layout, drawn.as_ref())?;
    Ok(Accepted {
        names: layout.name_count,
        parties: layout.party_count,
        opened: openings::opened_count(&layout),
        order: drawn.map(|drawn| drawn.order),
    })
}

// The first three passes.
fn check_early(layout: &Layout) -> Result<(), Refusal>
    ensures { result ≡ refused_for (early_fault layout.now.bytes.now) }
{
    layout.check_shape()?;
    ranges::check_ranges(layout)?;
    openings::check_seals(layout)
}

// How many bits are used for the order that is drawn, if there is one. Nothing is drawn where the first three passes
// refuse the protocol.
pub fn bits_used(heap: Global, protocol: &[u8]) -> Result<Option<usize>, AllocError>
    ensures { IfOk result (λ u. u ≡ bits_used protocol.now) }
{
    let layout = Layout::of(protocol);
    if check_early(&layout).is_err() {
        return Ok(None);
    }
    let drawn = orders::draw(heap, &layout)?;
    Ok(drawn.map(|drawn| drawn.used))
}

// The protocol of a finished draw: its list, its parties, and the order if there is one.
pub fn write(
    heap: Global,
    names: Names<'_, '_>,
    records: Records<'_>,
    order: Option<&[u16]>,
) -> Result<Vec<u8>, AllocError>
    ensures { IfOk result (λ v. v.items ≡ written (protocol_held names.entry records.entry (option_copied order.entry))) }
{
    let mut out = Vec::new(heap);
    write_names(&mut out, &names)?;
    write_word(&mut out, records.length)?;
    out.push(records.count)?;
    write_parties(&mut out, &records)?;
    write_order(&mut out, order)?;
    Ok(out)
}

// What the program that repeats a draw prints of a protocol: the two lines of the draw, or as an error why the protocol is
// refused.
pub fn repeat_text(heap: Global, protocol: &[u8]) -> Result<Result<String, String>, AllocError>
    ensures is { IfOk result (λ t. (answered_text t ≡ verdict_text (verdict protocol.now)) × (is_ok t ≡ is_accepted (verdict protocol.now))) }
    ensures drawn { IfOk result (λ t. RepeatsDrawn protocol.now (answered_text t) (is_ok t)) }
    ensures only { IfOk result (λ t. RepeatsOnlyDrawn protocol.now (answered_text t) (is_ok t)) }
{
    match check(heap, protocol) {
        Ok(accepted) => Ok(Ok(accepted.text(heap)?)),
        Err(CheckError::Refused(why)) => Ok(Err(format!(in heap; "{why}\n")?)),
        Err(CheckError::NoMemory(none)) => Err(none),
    }
}
