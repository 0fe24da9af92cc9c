// The parts of a protocol, written from a finished draw's memory one after another.
ghost use Rattle.std.specs.Prelude.{◌≡◌, ◌<◌, ◌++◌, map, length, OnOk};
ghost use Rattle.entries.specs.Lists.{names_listed};
ghost use Rattle.entries.specs.Rows.{packed, packed_rows};
ghost use Rattle.protocol.specs.Finished.{party_left};
ghost use Rattle.protocol.specs.Protocol.{word, written_party, written_order};
ghost use Rattle.std.specs.Option.{option_map};
ghost use Rattle.std.specs.List.{range_with_len, flat_map};

use crate::words::write_word;
use entries::Names;
use seals::Records;
use std::alloc::AllocError;

// A name after one byte of its length.
fn write_name(out: &mut Vec<u8>, name: &[u8]) -> Result<(), AllocError>
    requires { length name.now < 256 }
    ensures { OnOk result (out.new.items ≡ out.old.items ++ packed name.now) }
{
    out.push(name.len() as u8)?;
    out.extend_from_slice(name)
}

// The number of names, and the names.
pub(crate) fn write_names(out: &mut Vec<u8>, names: &Names) -> Result<(), AllocError>
    ensures { OnOk result (out.new.items ≡ out.old.items ++ (word (length (names_listed names.now)) ++ packed_rows (names_listed names.now))) }
{
    let count = names.len();
    write_word(out, count)?;
    for number in 0..count {
        write_name(out, names.name(number))?;
    }
    Ok(())
}

// A party: its seal, and one byte 1 and its opening, or one byte 0.
fn write_party(out: &mut Vec<u8>, records: &Records, party: u8) -> Result<(), AllocError>
    ensures { OnOk result (out.new.items ≡ out.old.items ++ written_party (party_left records.now.bytes.now records.now.length party)) }
{
    out.extend_from_slice(records.seal_in(party))?;
    let Some(opening) = records.opening_in(party) else {
        out.push(0)?;
        return Ok(());
    };
    out.push(1)?;
    out.extend_from_slice(opening)
}

pub(crate) fn write_parties(out: &mut Vec<u8>, records: &Records) -> Result<(), AllocError>
    ensures { OnOk result (out.new.items ≡ out.old.items ++ flat_map written_party (map (party_left records.now.bytes.now records.now.length) (range_with_len 0 records.now.count))) }
{
    for party in 0..records.count {
        write_party(out, records, party)?;
    }
    Ok(())
}

// One byte 1 and the order, or one byte 0.
pub(crate) fn write_order(out: &mut Vec<u8>, order: Option<&[u16]>) -> Result<(), AllocError>
    ensures { OnOk result (out.new.items ≡ out.old.items ++ written_order (option_map (λ x. x.now) order.entry)) }
{
    let Some(numbers) = order else {
        out.push(0)?;
        return Ok(());
    };
    out.push(1)?;
    write_numbers(out, numbers)
}

fn write_numbers(out: &mut Vec<u8>, numbers: &[u16]) -> Result<(), AllocError>
    ensures { OnOk result (out.new.items ≡ out.old.items ++ flat_map word numbers.now) }
{
    for number in numbers {
        write_word(out, *number)?;
    }
    Ok(())
}
