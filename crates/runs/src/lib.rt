// A whole draw from a file of steps: what is printed of it, and its protocol.
//
// `draw` is all that the program of that name does between reading its file and printing: the memory of the draw, every
// step of the file, the lines for the refusals, the summary and the parties left out, and the bytes of the protocol.
// `run` goes only to the last state, over memory that the caller lends.
#![tactic(auto)]

mod all_steps;
mod no_draw;
mod report;
mod room;

pub use all_steps::run;
pub use no_draw::NoDraw;
pub use report::{Finish, Report, draw};
pub use room::Room;
