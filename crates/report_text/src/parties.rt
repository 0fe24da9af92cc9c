// The lines before the places: how many there were, who opened, the list's hash, the bits.
ghost use Rattle.std.specs.Prelude.{◌*◌, ◌≡◌};
ghost use Rattle.output.specs.Writes.{Writes};
ghost use Rattle.protocol.specs.Layout.{bits_length};
ghost use Rattle.report_text.specs.Report.{bits_line, bits_words, counts_line, hash_line, party_line, party_lines};

use output::Output;
use protocol::{Accepted, bits_length, has_opened, list_hash};

pub(crate) fn put_counts(out: &mut Output, accepted: &Accepted)
    ensures { Writes out.old out.new (counts_line accepted.now.names accepted.now.parties accepted.now.opened) }
{
    out.put_decimal(accepted.names);
    out.put(b" names, ");
    out.put_decimal(accepted.parties);
    out.put(b" parties, ");
    out.put_decimal(accepted.opened);
    out.put(b" opened\n");
}

fn put_party(out: &mut Output, protocol: &[u8], party: u8)
    ensures { Writes out.old out.new (party_line protocol.now party) }
{
    out.put(b"party ");
    out.put_decimal(party);
    if has_opened(protocol, party) {
        out.put(b" opened\n");
    } else {
        out.put(b" left out\n");
    }
}

pub(crate) fn put_parties(out: &mut Output, protocol: &[u8], parties: u8)
    ensures { Writes out.old out.new (party_lines protocol.now parties) }
{
    for party in 0..parties {
        put_party(out, protocol, party);
    }
}

pub(crate) fn put_hash(out: &mut Output, protocol: &[u8])
    ensures { Writes out.old out.new (hash_line protocol.now) }
{
    out.put(b"list hash ");
    out.put_hex(&list_hash(protocol));
    out.put(b"\n");
}

fn put_used(out: &mut Output, used: Option<usize>)
    ensures { Writes out.old out.new (bits_words used) }
{
    match used {
        Some(used) => {
            out.put(b"bits used ");
            out.put_decimal(used);
            out.put(b" of ");
        }
        None => out.put(b"bits ran out, of "),
    }
}

// How many bits were used for the order, if there is one, of how many.
pub(crate) fn put_bits(out: &mut Output, protocol: &[u8], used: Option<usize>)
    ensures { Writes out.old out.new (bits_line used (8 * bits_length protocol.now)) }
{
    put_used(out, used);
    out.put_decimal(8 * usize::from(bits_length(protocol)));
    out.put(b"\n");
}
