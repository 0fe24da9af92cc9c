// The laws of the parties' records, over the definitions that the contracts of `seals` and `sum` cite. No program calls
// these functions: each is there so that its contract demands the proof of a law.
#![tactic(auto)]

ghost use Rattle.records.specs.Laws.{SealTaken, OpeningTaken, OpeningSummed, SealUnsummed};

// A seal that is taken is the next party's, and changes no other record.
pub fn seal_taken_stands() -> u8
    ensures { SealTaken }
{
    0
}

// An opening that is taken gives the seal, comes once, and changes no other record.
pub fn opening_taken_stands() -> u8
    ensures { OpeningTaken }
{
    0
}

// The sum is that of exactly the openings taken, in whatever order they came.
pub fn opening_summed_stands() -> u8
    ensures { OpeningSummed }
{
    0
}

// A seal adds nothing to the sum.
pub fn seal_unsummed_stands() -> u8
    ensures { SealUnsummed }
{
    0
}
