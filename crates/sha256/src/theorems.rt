// What is proved of the definitions themselves. Each function says one theorem by its contract, and does nothing.
ghost use Rattle.sha256.specs.Theorems.{HashOfNothing, HashOfAbc, WholeBlocks, LeastZeros, HashIsBytes, PartsJoin, FinishesWithHash};

pub fn hash_of_nothing_stands() -> u8
    ensures { HashOfNothing }
{
    0
}

pub fn hash_of_abc_stands() -> u8
    ensures { HashOfAbc }
{
    0
}

pub fn whole_blocks_stands() -> u8
    ensures { WholeBlocks }
{
    0
}

pub fn least_zeros_stands() -> u8
    ensures { LeastZeros }
{
    0
}

pub fn hash_is_bytes_stands() -> u8
    ensures { HashIsBytes }
{
    0
}

pub fn parts_join_stands() -> u8
    ensures { PartsJoin }
{
    0
}

pub fn finishes_with_hash_stands() -> u8
    ensures { FinishesWithHash }
{
    0
}
