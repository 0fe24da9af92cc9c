// What a party is told that asks for its seal: its number, the seal, and until when to keep the opening secret.
#![tactic(auto)]

ghost use Rattle.std.specs.Prelude.{◌≡◌};
ghost use Rattle.ceremony.specs.Draws.{closed_list, state};
ghost use Rattle.output.specs.Writes.{Writes};
ghost use Rattle.seal_text.specs.Seals.{no_seal_line, seal_for, seal_lines, seal_told};
ghost use Rattle.std.specs.Result.{result_and};

use ceremony::{ClosedList, Draw};
use output::Output;
use seals::{MOST_PARTIES, SALT, seal};

// Why there is no seal.
#[derive(Clone, Copy, Debug, PartialEq, Eq)]
pub enum NoSeal {
    // no party has this number
    NoSuchParty,
    // the list is not closed yet, whose hash is sealed too
    ListOpen,
    // the opening has not just 32 bytes and those that each party puts in: how many it should have, and how many it has
    OpeningLength { wanted: usize, given: usize },
}

// The seal of a party's opening for a list.
fn seal_for(list: Option<ClosedList>, party: u8, opening: &[u8]) -> Result<[u8; 32], NoSeal>
    ensures { result ≡ seal_for party opening.now list }
{
    if party >= MOST_PARTIES {
        return Err(NoSeal::NoSuchParty);
    }
    let list = list.ok_or(NoSeal::ListOpen)?;
    let wanted = SALT + usize::from(list.length);
    let given = opening.len();
    if given != wanted {
        return Err(NoSeal::OpeningLength { wanted, given });
    }
    Ok(seal(&list.hash, party, opening))
}

fn put_lines(out: &mut Output, party: u8, seal: &[u8])
    ensures { Writes out.old out.new (seal_lines party seal.now) }
{
    out.put(b"party ");
    out.put_decimal(party);
    out.put(b"\nseal ");
    out.put_hex(seal);
    out.put(b"\nKeep your opening secret until the seals are closed, and hand it in then.\n");
}

fn put_no_seal(out: &mut Output, why: NoSeal)
    ensures { Writes out.old out.new (no_seal_line why) }
{
    match why {
        NoSeal::NoSuchParty => out.put(b"a party has a number from 0 to 254\n"),
        NoSeal::ListOpen => out.put(b"the list is not closed yet\n"),
        NoSeal::OpeningLength { wanted, given } => {
            out.put(b"the opening has ");
            out.put_decimal(given);
            out.put(b" bytes, and should have ");
            out.put_decimal(wanted);
            out.put(b": 32, and those that each party puts in\n");
        }
    }
}

// Writes the seal of a party's opening for the list of a draw, or why there is none.
pub fn put_seal(out: &mut Output, draw: &Draw, party: u8, opening: &[u8]) -> Result<(), NoSeal>
    ensures text { Writes out.old out.new (seal_told party opening.now (closed_list (state draw.now))) }
    ensures sealed { result ≡ result_and (seal_for party opening.now (closed_list (state draw.now))) (Ok tt) }
{
    match seal_for(draw.closed_list(), party, opening) {
        Ok(seal) => {
            put_lines(out, party, &seal);
            Ok(())
        }
        Err(why) => {
            put_no_seal(out, why);
            Err(why)
        }
    }
}
