// The fourth pass: the order is the one drawn from the sum of the opened parties' bits, and the word says whether there is
// one.
ghost use Rattle.std.specs.Prelude.{◌≡◌, ◌+◌, ◌*◌, ◌^◌, ◌<◌, length, IfOk};
ghost use Rattle.protocol.specs.Check.{drawing_of, order_fault, refused_with};
ghost use Rattle.protocol.specs.Found.{drawing};
ghost use Rattle.protocol.specs.Layout.{numbers_at};
ghost use Rattle.protocol.specs.Protocol.{ordered};
ghost use Rattle.refusals.specs.declared.Refusal.TheVariants.{WrongOrder};
ghost use Rattle.std.specs.Option.{option_copied};
ghost use Rattle.std.specs.Str.{bytes_eq};

use crate::layout::Layout;
use crate::sums::sum_of_bits;
use crate::words::word_at;
use order::draw_order;
use parts::byte_at;
use refusals::Refusal;
use std::alloc::{AllocError, Global};

// An order, and how many bits are used for it.
#[derive(Drop)]
pub(crate) struct Drawn {
    pub order: Vec<u16>,
    pub used: usize,
}

// The order that is drawn, if there is one.
pub(crate) fn draw(heap: Global, layout: &Layout) -> Result<Option<Drawn>, AllocError>
    ensures { IfOk result (λ d. drawing d ≡ drawing_of layout.now.bytes.now) }
{
    let sum = sum_of_bits(heap, layout)?;
    let mut order = vec![in heap; 0; layout.name_count as usize]?;
    let Some(used) = draw_order(&mut order, &sum, 0) else {
        return Ok(None);
    };
    Ok(Some(Drawn { order, used }))
}

// Whether the numbers from a place on are those of the order. They are counted and not cut into pairs, as numbers past
// the end count too.
fn is_order(bytes: &[u8], at: usize, order: &[u16]) -> bool
    requires { at < 2 ^ 34 }
    ensures { result ≡ bytes_eq (numbers_at bytes.now at (length order.now)) order.now }
{
    let numbers = (0..order.len()).map(|k| word_at(bytes, at + 2 * k));
    numbers.zip(order).all(|(told, drawn)| told == *drawn)
}

// Whether the word is 1 and the order behind it is the one drawn, or the word is 0 and none is drawn.
pub(crate) fn check_order(layout: &Layout, drawn: Option<&Drawn>) -> Result<(), Refusal>
    ensures { result ≡ refused_with WrongOrder (order_fault layout.now.bytes.now (ordered (drawing (option_copied drawn.entry)))) }
{
    let at = layout.order_at;
    let word = byte_at(layout.bytes, at);
    match drawn {
        Some(drawn) if word == 1 => {
            if !is_order(layout.bytes, at + 1, drawn.order.as_slice()) {
                return Err(Refusal::WrongOrder(at + 1));
            }
            Ok(())
        }
        None if word == 0 => Ok(()),
        _ => Err(Refusal::WrongOrder(at)),
    }
}
