// The memory that a caller lends to a draw, and what is known of the list once it is closed.

// `slots` and `index` hold the list, `seals` the parties' records, `bits` the sum so far, and `order` the order once it
// is drawn.
#[derive(Drop)]
pub struct Memory<'a> {
    pub slots: &'a mut [u8],
    pub index: &'a mut [u16],
    pub seals: &'a mut [u8],
    pub bits: &'a mut [u8],
    pub order: &'a mut [u16],
}

// How many names the closed list has, how many bytes each party puts in, and the list's hash.
#[derive(Clone, Copy, Debug, PartialEq, Eq)]
pub struct ClosedList {
    pub count: u16,
    pub length: u16,
    pub hash: [u8; 32],
}
