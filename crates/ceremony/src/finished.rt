// The last phase: the order is drawn, or the bits have run out.
ghost use Rattle.std.specs.Prelude.{◌≡◌, ◌≤◌, length, take, IfOk, string_bytes};
ghost use Rattle.ceremony.specs.Model.{as_ended, sealed};
ghost use Rattle.ceremony.specs.Reports.{summary_of, left_out_of, left_out_lines, protocol_left, order_of};
ghost use Rattle.ceremony.specs.Steps.{after_drawing};
ghost use Rattle.order.specs.Drawings.{drawn_order, outcome, left_in};
ghost use Rattle.protocol.specs.Protocol.{written};
ghost use Rattle.std.specs.Option.{option_map};

use crate::closed::Closed;
use order::draw_order;
use parts::front;
use protocol::write;
use seals::Records;
use std::alloc::{AllocError, Global};
use texts::{Summary, add_left_out};

#[derive(Drop)]
pub struct Finished<'a> {
    pub(crate) closed: Closed<'a>,
    pub(crate) used: Option<usize>,
}

// Draws the order of the first `names` places from the first `bytes` bytes of the sum.
fn draw_front(order: &mut [u16], names: u16, bits: &[u8], bytes: u16) -> Option<usize>
    requires places { names ≤ length order.old }
    requires whole { bytes ≤ length bits.now }
    ensures is { result ≡ outcome (drawn_order names (take bytes bits.now) 0) }
    ensures after { order.new ≡ left_in (drawn_order names (take bytes bits.now) 0) order.old }
{
    let names = names as usize;
    let bytes = bytes as usize;
    draw_order(&mut order[0..names], &bits[0..bytes], 0)
}

// The lines that name the parties that have not opened.
fn left_out_lines(heap: Global, records: Records<'_>) -> Result<String, AllocError>
    ensures { IfOk result (λ s. string_bytes s ≡ left_out_lines records.entry.bytes.now records.entry.length records.entry.count) }
{
    let mut text = String::new(heap);
    for party in 0..records.count {
        if !records.has_opened(party) {
            add_left_out(&mut text, party)?;
        }
    }
    Ok(text)
}

impl<'a> Finished<'a> {
    // The final close: the order is drawn from the sum. What is held is taken apart for it, since the proofs cover no two
    // loans behind one reference.
    pub(crate) fn draw(closed: Closed<'a>) -> Finished<'a>
        requires places { closed.list.count ≤ length closed.order.now }
        requires whole { closed.parties.length ≤ length closed.bits.now }
        ensures { as_ended result ≡ after_drawing (sealed closed.entry) }
    {
        let Closed {
            list,
            hash,
            parties,
            bits,
            order,
        } = closed;
        let used = draw_front(order, list.count, bits, parties.length);
        let closed = Closed {
            list,
            hash,
            parties,
            bits,
            order,
        };
        Finished { closed, used }
    }

    // The two lines that end a draw: how many names, parties and openings there were, and the order.
    pub fn summary(&self, heap: Global) -> Result<String, AllocError>
        ensures { IfOk result (λ s. string_bytes s ≡ summary_of (as_ended self.now)) }
    {
        let Closed { list, parties, .. } = &self.closed;
        let summary = Summary {
            names: list.count,
            parties: parties.count,
            opened: parties.records().opened_count(),
            order: self.order(),
        };
        summary.text(heap)
    }

    // The names in order, if there is an order.
    fn order(&self) -> Option<&[u16]>
        ensures { option_map (λ x. x.now) result ≡ order_of (as_ended self.now) }
    {
        self.used?;
        Some(front(self.closed.order, self.closed.list.count as usize))
    }

    // The lines that name the parties whose openings have not come.
    pub fn left_out(&self, heap: Global) -> Result<String, AllocError>
        ensures { IfOk result (λ s. string_bytes s ≡ left_out_of (as_ended self.now)) }
    {
        left_out_lines(heap, self.closed.parties.records())
    }

    // The protocol of the draw.
    pub fn protocol(&self, heap: Global) -> Result<Vec<u8>, AllocError>
        ensures { IfOk result (λ v. v.items ≡ written (protocol_left (as_ended self.now))) }
    {
        let Closed { list, parties, .. } = &self.closed;
        write(heap, list.names(), parties.records(), self.order())
    }
}
