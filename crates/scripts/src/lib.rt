// Whole draws: what the run of every script comes to, and that it favours nobody. No program calls these functions: each
// is there so that its contract demands the proof of a theorem.
#![tactic(auto)]

ghost use Rattle.scripts.specs.Fair.{PrintsWhole, FairFile, SeldomNone};
ghost use Rattle.scripts.specs.Made.{MadeBySteps};
ghost use Rattle.scripts.specs.Whole.{RunsWhole};

// The run of every script takes each step and ends.
#[tactic(auto, using(crate::proofs::Whole::runs_whole))]
pub fn runs_whole_stands() -> u8
    ensures { RunsWhole }
{
    0
}

// The draw of every script's file prints the order drawn from the sum of its openings.
#[tactic(auto, using(crate::proofs::Printed::prints_whole))]
pub fn prints_whole_stands() -> u8
    ensures { PrintsWhole }
{
    0
}

// Of all the files that differ only in what one party puts in, as many print one order as any other.
#[tactic(auto, using(crate::proofs::Fair::fair_file))]
pub fn fair_file_stands() -> u8
    ensures { FairFile }
{
    0
}

// And few of them print that there is none.
#[tactic(auto, using(crate::proofs::Fair::seldom_none))]
pub fn seldom_none_stands() -> u8
    ensures { SeldomNone }
{
    0
}

// And every accepted protocol is the one that the run of some file of steps writes.
#[tactic(auto, using(crate::proofs::Made::made_by_steps))]
pub fn made_by_steps_stands() -> u8
    ensures { MadeBySteps }
{
    0
}
