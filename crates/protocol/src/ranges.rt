// The second pass: counts, lengths, names and the bytes that tell whether a party opened are in range, and names are
// sorted. The place of the first that is not is told.
ghost use Rattle.std.specs.Prelude.{◌≡◌};
ghost use Rattle.protocol.specs.Check.{first_of, fault_in_name, name_fault, opened_fault, range_fault, refused_with};
ghost use Rattle.protocol.specs.Layout.{name_count, name_at, party_count};
ghost use Rattle.refusals.specs.declared.Refusal.TheVariants.{OutOfRange};

use crate::layout::Layout;
use crate::names::Name;
use crate::parties::Party;
use entries::{LONGEST_NAME, MOST_NAMES};
use refusals::Refusal;
use seals::{LEAST_BITS, MOST_BITS};

fn check_name(name: &Name, before: &[u8]) -> Result<(), Refusal>
    ensures { result ≡ refused_with OutOfRange (fault_in_name name.now.bytes.now (name_at name.now.bytes.now name.now.number) before.now) }
{
    let length = name.length() as usize;
    if !(1..=LONGEST_NAME).contains(&length) {
        return Err(Refusal::OutOfRange(name.at));
    }
    if before < name.text() {
        return Ok(());
    }
    Err(Refusal::OutOfRange(name.at + 1))
}

fn check_names(layout: &Layout) -> Result<(), Refusal>
    ensures { result ≡ refused_with OutOfRange (first_of (name_fault layout.now.bytes.now) (name_count layout.now.bytes.now)) }
{
    let mut before = &layout.bytes[0..0];
    for name in layout.each_name() {
        check_name(&name, before)?;
        before = name.text();
    }
    Ok(())
}

fn check_mark(party: &Party) -> Result<(), Refusal>
    ensures { result ≡ refused_with OutOfRange (opened_fault party.now.bytes.now party.now.number) }
{
    if party.mark() > 1 {
        return Err(Refusal::OutOfRange(party.mark_at()));
    }
    Ok(())
}

fn check_marks(layout: &Layout) -> Result<(), Refusal>
    ensures { result ≡ refused_with OutOfRange (first_of (opened_fault layout.now.bytes.now) (party_count layout.now.bytes.now)) }
{
    for party in layout.each_party() {
        check_mark(&party)?;
    }
    Ok(())
}

pub(crate) fn check_ranges(layout: &Layout) -> Result<(), Refusal>
    ensures { result ≡ refused_with OutOfRange (range_fault layout.now.bytes.now) }
{
    if !(1..=MOST_NAMES).contains(&layout.name_count) {
        return Err(Refusal::OutOfRange(0));
    }
    check_names(layout)?;
    if !(LEAST_BITS..=MOST_BITS).contains(&layout.length()) {
        return Err(Refusal::OutOfRange(layout.length_at));
    }
    if layout.party_count == 0 {
        return Err(Refusal::OutOfRange(layout.length_at + 2));
    }
    check_marks(layout)
}
