// What a run of a file tells.
ghost use Rattle.std.specs.Prelude.{◌≡◌, List, ◌++◌, is_err, IfOk, string_bytes};
ghost use Rattle.std.specs.Result.{result_map_both};
ghost use Rattle.ceremony.specs.Draws.{state};
ghost use Rattle.ceremony.specs.Model.{as_ended};
ghost use Rattle.ceremony.specs.Reports.{summary_of, left_out_of, protocol_left};
ghost use Rattle.protocol.specs.Protocol.{written};
ghost use Rattle.runs.specs.Reports.{report, end_of, told_of, report_of};

use crate::all_steps::run;
use crate::no_draw::NoDraw;
use crate::room::Room;
use ceremony::{Draw, Finished, Listing};
use seals::MOST_PARTIES;
use std::alloc::{AllocError, Global};
use step_file::CutShort;

// A line for each refused step, and what is told of the draw, if the file ends with one.
#[derive(Drop)]
pub struct Report {
    pub refusals: String,
    pub finish: Result<Finish, NoDraw>,
}

// Of a finished draw the summary, the lines that name the parties whose openings have not come, and the protocol.
#[derive(Drop)]
pub struct Finish {
    pub summary: String,
    pub left_out: String,
    pub protocol: Vec<u8>,
}

// The draw that a run ends with, if it does.
fn end<'d, 'a>(draw: &'d Draw<'a>, read: Result<(), CutShort>) -> Result<&'d Finished<'a>, NoDraw>
    ensures { result_map_both (λ e. as_ended e.now) (λ why. why) result ≡ end_of (is_err read) (state draw.now) }
{
    read?;
    match draw {
        Draw::Finished(end) => Ok(end),
        _ => Err(NoDraw::Unfinished),
    }
}

// What is told of a draw that has ended.
fn tell_end(heap: Global, end: &Finished) -> Result<Finish, AllocError>
    ensures summary { IfOk result (λ f. string_bytes f.summary ≡ summary_of (as_ended end.now)) }
    ensures left_out { IfOk result (λ f. string_bytes f.left_out ≡ left_out_of (as_ended end.now)) }
    ensures protocol { IfOk result (λ f. f.protocol.items ≡ written (protocol_left (as_ended end.now))) }
{
    let summary = end.summary(heap)?;
    let left_out = end.left_out(heap)?;
    let protocol = end.protocol(heap)?;
    Ok(Finish {
        summary,
        left_out,
        protocol,
    })
}

// What is told of the last state of a run.
fn tell(
    heap: Global,
    draw: &Draw,
    read: Result<(), CutShort>,
    refusals: String,
) -> Result<Report, AllocError>
    ensures { IfOk result (λ t. report t ≡ told_of (string_bytes refusals) (is_err read) (state draw.now)) }
{
    let finish = match end(draw, read) {
        Ok(end) => Ok(tell_end(heap, end)?),
        Err(why) => Err(why),
    };
    Ok(Report { refusals, finish })
}

// The whole draw of a file of steps.
pub fn draw(heap: Global, file: &[u8]) -> Result<Report, AllocError>
    ensures { IfOk result (λ t. report t ≡ report_of file.now) }
{
    let mut room = Room::new(heap, MOST_PARTIES)?;
    let start = Draw::Listing(Listing::begin(room.lend()));
    let mut refusals = String::new(heap);
    let (last, read) = run(start, file, &mut refusals)?;
    tell(heap, &last, read, refusals)
}
