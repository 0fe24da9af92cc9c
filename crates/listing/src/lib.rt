// The laws of the list of names, over the definitions that the contracts of `entries` cite. No program calls these
// functions: each is there so that its contract demands the proof of a law.
#![tactic(auto)]

ghost use Rattle.listing.specs.Laws.{PlaceFound, EntryInserts, EntryTaken, EntryNeeds, EntryRefused, EntryKeeps, OneList, AllListed, AnyOrder};

// Halving finds a name, or the place where it belongs.
pub fn place_found_stands() -> u8
    ensures { PlaceFound }
{
    0
}

// An entry that is taken is put in among the others.
pub fn entry_inserts_stands() -> u8
    ensures { EntryInserts }
{
    0
}

// An entry is taken if nothing speaks against it.
pub fn entry_taken_stands() -> u8
    ensures { EntryTaken }
{
    0
}

// It is taken only then.
pub fn entry_needs_stands() -> u8
    ensures { EntryNeeds }
{
    0
}

// A refused entry changes nothing.
pub fn entry_refused_stands() -> u8
    ensures { EntryRefused }
{
    0
}

// Entries keep memory sound.
pub fn entry_keeps_stands() -> u8
    ensures { EntryKeeps }
{
    0
}

// The list is sorted, holds each taken entry once, and is the same wherever the same entries were taken.
pub fn one_list_stands() -> u8
    ensures { OneList }
{
    0
}

// With room for all entries the list holds just those that are names.
pub fn all_listed_stands() -> u8
    ensures { AllListed }
{
    0
}

// So it is the same for any order of the entries.
pub fn any_order_stands() -> u8
    ensures { AnyOrder }
{
    0
}
