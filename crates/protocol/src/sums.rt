// The sum of the opened parties' bits.
ghost use Rattle.std.specs.Prelude.{◌≡◌, map, drop, IfOk};
ghost use Rattle.protocol.specs.Layout.{bits_length, party_of, parties_of};
ghost use Rattle.protocol.specs.Protocol.{openings};
ghost use Rattle.std.specs.Option.{option_to_list};
ghost use Rattle.sum.specs.Sums.{sum_from, sum_of};

use crate::layout::Layout;
use crate::parties::Party;
use parts::behind;
use seals::SALT;
use std::alloc::{AllocError, Global};

// Adds the bits of a party to the sum, if it opened: those behind the first 32 bytes of its opening.
#[tactic(auto, unfolding(sum::specs::Sums::sum_from))]
fn add_opening(sum: &mut [u8], party: &Party)
    ensures { sum.new ≡ sum_from sum.old (map (drop 32) (option_to_list (party_of party.now.bytes.now party.now.number).opening)) }
{
    let Some(opening) = party.opening() else {
        return;
    };
    sum::add(sum, behind(opening, SALT));
}

// Adds the bits of each party that opened.
fn add_bits(sum: &mut [u8], layout: &Layout)
    ensures { sum.new ≡ sum_from sum.old (map (drop 32) (openings (parties_of layout.now.bytes.now))) }
{
    for party in layout.each_party() {
        add_opening(sum, &party);
    }
}

#[tactic(auto, using(std::proofs::lemmas::List::with_items_is), unfolding(sum::specs::Sums::sum_of))]
pub(crate) fn sum_of_bits(heap: Global, layout: &Layout) -> Result<Vec<u8>, AllocError>
    ensures { IfOk result (λ v. v.items ≡ sum_of (bits_length layout.now.bytes.now) (map (drop 32) (openings (parties_of layout.now.bytes.now)))) }
{
    let mut sum = vec![in heap; 0; layout.length() as usize]?;
    add_bits(&mut sum, layout);
    Ok(sum)
}
