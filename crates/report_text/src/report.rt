// The whole report, and the place of one member alone.
ghost use Rattle.std.specs.Prelude.{IfOk, OnErr, ◌≡◌};
ghost use Rattle.std.specs.Option.{option_map};
ghost use Rattle.output.specs.Writes.{Writes};
ghost use Rattle.protocol.specs.Check.{verdict};
ghost use Rattle.report_text.specs.Report.{accepted_or_refused, no_place_line, order_lines, place_among, place_for, place_told, report};

use crate::parties::{put_bits, put_counts, put_hash, put_parties};
use crate::places::{find, put_line, put_places};
use crate::refused::put_sentence;
use output::Output;
use protocol::{CheckError, bits_used, check};
use refusals::Refusal;
use std::alloc::{AllocError, Global};

// Why a name has no place.
#[derive(Clone, Copy, Debug, PartialEq, Eq)]
pub enum NoPlace {
    // the protocol is refused
    Refused(Refusal),
    // the bits ran out
    NoOrder,
    // the list has no such name
    NotInList,
}

fn put_order(out: &mut Output, protocol: &[u8], order: Option<&[u16]>)
    ensures { Writes out.old out.new (order_lines protocol.now (option_map (λ x. x.now) order.entry)) }
{
    match order {
        Some(order) => put_places(out, protocol, order),
        None => out.put(b"no order\n"),
    }
}

// Writes the report of a protocol, or why it is refused. Where memory runs out, nothing is written.
pub fn put_report(
    heap: Global,
    out: &mut Output,
    protocol: &[u8],
) -> Result<Result<(), Refusal>, AllocError>
    ensures text { IfOk result (λ _. Writes out.old out.new (report protocol.now)) }
    ensures unwritten { OnErr result (out.new ≡ out.old) }
    ensures accepted { IfOk result (λ r. r ≡ accepted_or_refused (verdict protocol.now)) }
{
    match check(heap, protocol) {
        Ok(accepted) => {
            let used = bits_used(heap, protocol)?;
            put_counts(out, &accepted);
            put_parties(out, protocol, accepted.parties);
            put_hash(out, protocol);
            put_bits(out, protocol, used);
            put_order(out, protocol, accepted.order.as_deref());
            Ok(Ok(()))
        }
        Err(CheckError::Refused(why)) => {
            put_sentence(out, why);
            Ok(Err(why))
        }
        Err(CheckError::NoMemory(none)) => Err(none),
    }
}

// The place of a name, counted from 1.
fn place_for(
    heap: Global,
    protocol: &[u8],
    name: &[u8],
) -> Result<Result<usize, NoPlace>, AllocError>
    ensures { IfOk result (λ r. r ≡ place_for protocol.now name.now) }
{
    match check(heap, protocol) {
        Ok(accepted) => Ok(place_among(protocol, accepted.order.as_deref(), name)),
        Err(CheckError::Refused(why)) => Ok(Err(NoPlace::Refused(why))),
        Err(CheckError::NoMemory(none)) => Err(none),
    }
}

fn place_among(protocol: &[u8], order: Option<&[u16]>, name: &[u8]) -> Result<usize, NoPlace>
    ensures { result ≡ place_among protocol.now name.now (option_map (λ x. x.now) order.entry) }
{
    let order = order.ok_or(NoPlace::NoOrder)?;
    find(protocol, order, name).ok_or(NoPlace::NotInList)
}

fn put_no_place(out: &mut Output, why: NoPlace)
    ensures { Writes out.old out.new (no_place_line why) }
{
    match why {
        NoPlace::Refused(why) => put_sentence(out, why),
        NoPlace::NoOrder => out.put(b"no order\n"),
        NoPlace::NotInList => out.put(b"no such name in the list\n"),
    }
}

// Writes the place of one name alone, or why there is none, and answers the same. Where memory runs out, nothing is
// written.
pub fn put_place(
    heap: Global,
    out: &mut Output,
    protocol: &[u8],
    name: &[u8],
) -> Result<Result<usize, NoPlace>, AllocError>
    ensures text { IfOk result (λ r. Writes out.old out.new (place_told name.now r)) }
    ensures unwritten { OnErr result (out.new ≡ out.old) }
    ensures place { IfOk result (λ r. r ≡ place_for protocol.now name.now) }
{
    let found = place_for(heap, protocol, name)?;
    match found {
        Ok(place) => put_line(out, place, name),
        Err(why) => put_no_place(out, why),
    }
    Ok(found)
}
