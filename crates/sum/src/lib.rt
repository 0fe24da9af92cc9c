// The sum of the rows of bytes that the parties put in: exclusive-or, place by place.
// Each row is added to the sum where it stands, so that no more than one row is ever held beside it.
#![tactic(auto)]

ghost use Rattle.std.specs.Prelude.{◌≡◌};
ghost use Rattle.sum.specs.Laws.{AnyOrder, OneMore};
ghost use Rattle.sum.specs.Sums.{xor_bytes};

// Adds a row to the sum in place. What has no partner in the other stays, or is passed over. The row is read by its index:
// of a zip over bytes that are changed the library promises their number alone.
pub fn add(sum: &mut [u8], row: &[u8])
    ensures after { sum.new ≡ xor_bytes sum.old row.now }
    ensures more { OneMore sum.old row.now sum.new }
{
    for (i, byte) in sum.iter_mut().enumerate() {
        let Some(more) = row.get(i) else { break };
        *byte ^= *more;
    }
}

// The same rows in any order have the same sum.
pub fn any_order_stands() -> u8
    ensures { AnyOrder }
{
    0
}
