// What is counted of the draw: of all the rows of bits that one party can put in, as many lead to one order as to any
// other, and few lead to none. Statements and proofs only: each function below has a theorem for its contract, and the
// programs make no call of it.
#![tactic(auto)]

ghost use Rattle.counting.specs.Rows.{BitsAdded, Packed, EachRow};
ghost use Rattle.counting.specs.Numbers.{FairNumber};
ghost use Rattle.counting.specs.Orders.{IsOrder, Kept, EachOnce, IsArrangement, OneRow, Fair, FairPermutation, Uniform};
ghost use Rattle.counting.specs.Draws.{IsDrawn, FairDraw, Alone, UniformDraw, Shares, FairRenamed};
ghost use Rattle.counting.specs.Places.{FairPlace, FairPlaces, FairPlaceDraw, FairPlacesDraw};
ghost use Rattle.counting.specs.Enough.{SeldomOut, SeldomOutDraw, Few1400, Enough, Enough1400};
ghost use Rattle.counting.specs.Table.{SmallDraws};

// The bits of a sum of bytes are the bits of both, added.
pub fn bits_added_stands() -> u8
    ensures { BitsAdded }
{
    0
}

// Each row of 8 * L bits is that of one row of L bytes.
pub fn packed_stands() -> u8
    ensures { Packed }
{
    0
}

// Each row of L bytes is that of one row of 8 * L bits.
pub fn each_row_stands() -> u8
    ensures { EachRow }
{
    0
}

// A drawn number is below n, and as many rows give one as any other.
pub fn fair_number_stands() -> u8
    ensures { FairNumber }
{
    0
}

// What is found is an order.
pub fn is_order_stands() -> u8
    ensures { IsOrder }
{
    0
}

// More bits do not change an order that was found.
pub fn kept_stands() -> u8
    ensures { Kept }
{
    0
}

// An order holds each name once.
pub fn each_once_stands() -> u8
    ensures { EachOnce }
{
    0
}

// What is found is an arrangement of the names.
pub fn is_arrangement_stands() -> u8
    ensures { IsArrangement }
{
    0
}

// Each arrangement is that of one row of drawn numbers, and of no other.
pub fn one_row_stands() -> u8
    ensures { OneRow }
{
    0
}

// Of all the rows of bits that one party can put in, as many lead to any one order as to any other.
pub fn fair_stands() -> u8
    ensures { Fair }
{
    0
}

// As many rows lead to one arrangement of the names as to any other.
pub fn fair_permutation_stands() -> u8
    ensures { FairPermutation }
{
    0
}

// The rows with any property of the order are those of any one order, times the orders with that property.
pub fn uniform_stands() -> u8
    ensures { Uniform }
{
    0
}

// What is drawn is what the code draws from the sum.
pub fn is_drawn_stands() -> u8
    ensures { IsDrawn }
{
    0
}

// Of all the rows of bits that one party can put in, as many lead to any one arrangement of the names as to any other.
pub fn fair_draw_stands() -> u8
    ensures { FairDraw }
{
    0
}

// Whatever the others put in, each outcome comes from as many rows of one party as from rows alone.
pub fn alone_stands() -> u8
    ensures { Alone }
{
    0
}

// The rows with any property of the arrangement are those of any one, times the orders with that property.
pub fn uniform_draw_stands() -> u8
    ensures { UniformDraw }
{
    0
}

// The rows of one party fall into equal shares, one for each arrangement, and those with no order.
pub fn shares_stands() -> u8
    ensures { Shares }
{
    0
}

// No name is favoured: as many rows lead to a property as to that property after renaming.
pub fn fair_renamed_stands() -> u8
    ensures { FairRenamed }
{
    0
}

// As many rows give a place to one name as to any other.
pub fn fair_place_stands() -> u8
    ensures { FairPlace }
{
    0
}

// As many rows give two places to two different names as to any other two.
pub fn fair_places_stands() -> u8
    ensures { FairPlaces }
{
    0
}

// As many rows of one party give a place to one name as to any other.
pub fn fair_place_draw_stands() -> u8
    ensures { FairPlaceDraw }
{
    0
}

// As many rows of one party give two places to two different names as to any other two.
pub fn fair_places_draw_stands() -> u8
    ensures { FairPlacesDraw }
{
    0
}

// Few rows are used up before there is an order.
pub fn seldom_out_stands() -> u8
    ensures { SeldomOut }
{
    0
}

// Few rows of one party are used up before there is an order.
pub fn seldom_out_draw_stands() -> u8
    ensures { SeldomOutDraw }
{
    0
}

// Fewer than 1,400 heads in 5,957 coins come in less than one row of 2^1000.
pub fn few_1400_stands() -> u8
    ensures { Few1400 }
{
    0
}

// Enough bytes for n names, by a comparison of numbers.
pub fn enough_stands() -> u8
    ensures { Enough }
{
    0
}

// At most 1,400 names, and at least 8,192 bytes: fewer than one row in 2^1000 gives no order.
pub fn enough_1400_stands() -> u8
    ensures { Enough1400 }
{
    0
}

// The table of small draws.
pub fn small_draws_stands() -> u8
    ensures { SmallDraws }
{
    0
}
