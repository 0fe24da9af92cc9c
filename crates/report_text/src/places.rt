// The places, each with its name.
ghost use Rattle.std.specs.Prelude.{IfSome, length, position, ◌+◌, ◌<◌, ◌≡◌};
ghost use Rattle.output.specs.Writes.{Writes};
ghost use Rattle.protocol.specs.Layout.{name_of};
ghost use Rattle.std.specs.Str.{bytes_eq};
ghost use Rattle.report_text.specs.Report.{place_in, place_line, place_lines, shown_name};

use names_text::is_text;
use output::Output;
use protocol::name;

// The name as it stands if it is text, else in hex: bytes that are no text could do anything to a terminal.
fn put_name(out: &mut Output, name: &[u8])
    ensures { Writes out.old out.new (shown_name name.now) }
{
    if is_text(name) {
        out.put(b": ");
        out.put(name);
    } else {
        out.put(b" in hex: ");
        out.put_hex(name);
    }
    out.put(b"\n");
}

pub(crate) fn put_line(out: &mut Output, place: usize, name: &[u8])
    ensures { Writes out.old out.new (place_line place name.now) }
{
    out.put(b"place ");
    out.put_decimal(place);
    put_name(out, name);
}

// A line for each place.
pub(crate) fn put_places(out: &mut Output, protocol: &[u8], order: &[u16])
    ensures { Writes out.old out.new (place_lines protocol.now 1 order.now) }
{
    for (k, number) in order.iter().enumerate() {
        put_line(out, k + 1, name(protocol, *number));
    }
}

// Where an order has the number of a name.
fn index_of(protocol: &[u8], order: &[u16], sought: &[u8]) -> Option<usize>
    ensures is { result ≡ position (λ n. bytes_eq (name_of protocol.now n) sought.now) order.now }
    ensures within { IfSome result (λ k. k < length order.now) }
{
    order
        .iter()
        .position(|number| name(protocol, *number) == sought)
}

// The place that has a name, counted from 1.
pub(crate) fn find(protocol: &[u8], order: &[u16], sought: &[u8]) -> Option<usize>
    ensures { result ≡ place_in protocol.now sought.now order.now }
{
    index_of(protocol, order, sought).map(|k| k + 1)
}
