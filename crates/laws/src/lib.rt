// The laws of whole runs, over the definitions that the contracts of `runs` and `ceremony` cite. No program calls these
// functions: each is there so that its contract demands the proof of a law.
#![tactic(auto)]

ghost use Rattle.laws.specs.Laws.{RefusedUnchanged, SealedFirst, RunsSound, SumOfOpenings, Independence, RunProtocols, Repeats};

// A refused step changes nothing.
#[tactic(auto, using(crate::proofs::Refusals::refused_unchanged))]
pub fn refused_unchanged_stands() -> u8
    ensures { RefusedUnchanged }
{
    0
}

// No seal is taken after an opening.
#[tactic(auto, using(crate::proofs::Phases::sealed_first))]
pub fn sealed_first_stands() -> u8
    ensures { SealedFirst }
{
    0
}

// Every run leaves a sound state.
#[tactic(auto, using(crate::proofs::Runs::runs_sound))]
pub fn runs_sound_stands() -> u8
    ensures { RunsSound }
{
    0
}

// The order is drawn from the sum of exactly the openings taken.
#[tactic(auto, using(crate::proofs::Runs::sum_of_openings))]
pub fn sum_of_openings_stands() -> u8
    ensures { SumOfOpenings }
{
    0
}

// The order depends on nothing but the number of names and the sum.
#[tactic(auto, using(crate::proofs::Runs::independence))]
pub fn independence_stands() -> u8
    ensures { Independence }
{
    0
}

// The protocol of every run that ends is the protocol of a draw.
pub fn run_protocols_stands() -> u8
    ensures { RunProtocols }
{
    0
}

// The protocol that a draw writes is accepted, and repeats what the draw printed.
pub fn repeats_stands() -> u8
    ensures { Repeats }
{
    0
}
