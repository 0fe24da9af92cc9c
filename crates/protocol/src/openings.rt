// The third pass: each opening gives its party's seal, and a party opened.
ghost use Rattle.std.specs.Prelude.{◌≡◌};
ghost use Rattle.protocol.specs.Check.{first_of, hash_of, party_fault, opened_count, seal_fault, refused_for, refused_with};
ghost use Rattle.protocol.specs.Layout.{party_count};
ghost use Rattle.refusals.specs.declared.Refusal.TheVariants.{BadOpening};

use crate::layout::Layout;
use crate::parties::Party;
use refusals::Refusal;
use seals::seal;

// The opening of a party gives its seal, if it opened.
fn check_opening(hash: &[u8], party: &Party) -> Result<(), Refusal>
    ensures { result ≡ refused_with BadOpening (party_fault hash.now party.now.bytes.now party.now.number) }
{
    let Some(opening) = party.opening() else {
        return Ok(());
    };
    if seal(hash, party.number, opening).as_slice() != party.seal() {
        return Err(Refusal::BadOpening(party.number));
    }
    Ok(())
}

fn check_openings(layout: &Layout) -> Result<(), Refusal>
    ensures { result ≡ refused_with BadOpening (first_of (party_fault (hash_of layout.now.bytes.now) layout.now.bytes.now) (party_count layout.now.bytes.now)) }
{
    let hash = layout.list_hash();
    for party in layout.each_party() {
        check_opening(&hash, &party)?;
    }
    Ok(())
}

// How many parties opened.
pub(crate) fn opened_count(layout: &Layout) -> u8
    ensures { result ≡ opened_count layout.now.bytes.now }
{
    layout
        .each_party()
        .filter(|party| party.has_opened())
        .count() as u8
}

pub(crate) fn check_seals(layout: &Layout) -> Result<(), Refusal>
    ensures { result ≡ refused_for (seal_fault layout.now.bytes.now) }
{
    check_openings(layout)?;
    if opened_count(layout) == 0 {
        return Err(Refusal::NoneOpened);
    }
    Ok(())
}
