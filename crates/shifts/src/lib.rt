// Numbers of a row moved by a place, to make room for one more.
#![tactic(auto)]

ghost use Rattle.std.specs.Prelude.{◌++◌, ◌≡◌, ◌-◌, length, take};

// Moves each number but the last a place back. The first stays, and then stands twice.
pub fn move_back(row: &mut [u16])
    ensures { row.new ≡ take 1 row.old ++ take (length row.old - 1) row.old }
{
    if row.is_empty() {
        return;
    }
    row.copy_within(..row.len() - 1, 1);
}
