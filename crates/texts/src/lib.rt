// The lines that the programs print.
#![tactic(auto)]

ghost use Rattle.std.specs.Prelude.{◌≡◌, ◌++◌, IfOk, string_bytes, OnOk};
ghost use Rattle.std.specs.Option.{option_map};
ghost use Rattle.texts.specs.Laws.{OrderTold, SummaryTold};
ghost use Rattle.texts.specs.Lines.{refusal_line, left_out_line, summary_lines, order_words};

use refusals::Refusal;
use std::alloc::{AllocError, Global};

// Adds the line of a refused step, whose number counts from 1.
pub fn add_refusal(text: &mut String, step: usize, why: Refusal) -> Result<(), AllocError>
    ensures { OnOk result (string_bytes text.new ≡ string_bytes text.old ++ refusal_line step why) }
{
    writeln!(text, "step {step} {why}")
}

// Adds the line that names a party whose opening has not come.
pub fn add_left_out(text: &mut String, party: u8) -> Result<(), AllocError>
    ensures { OnOk result (string_bytes text.new ≡ string_bytes text.old ++ left_out_line party) }
{
    writeln!(text, "party {party} left out")
}

// Adds the numbers of an order, each after a space, or the word for none.
fn add_order(text: &mut String, order: Option<&[u16]>) -> Result<(), AllocError>
    ensures { OnOk result (string_bytes text.new ≡ string_bytes text.old ++ order_words (option_map (λ x. x.now) order.entry)) }
{
    let Some(order) = order else {
        return text.push_str(" none");
    };
    for number in order {
        write!(text, " {number}")?;
    }
    Ok(())
}

// What a draw ends with: how many names, parties and openings there were, and the order if there is one.
#[derive(Clone, Copy, Debug)]
pub struct Summary<'a> {
    pub names: u16,
    pub parties: u8,
    pub opened: u8,
    pub order: Option<&'a [u16]>,
}

impl Summary<'_> {
    // The two lines that tell it.
    pub fn text(&self, heap: Global) -> Result<String, AllocError>
        ensures { IfOk result (λ s. string_bytes s ≡ summary_lines self.now.names self.now.parties self.now.opened (option_map (λ x. x.now) self.now.order)) }
    {
        let Summary {
            names,
            parties,
            opened,
            order,
        } = *self;
        let mut text = format!(in heap; "names {names} parties {parties} opened {opened}\norder")?;
        add_order(&mut text, order)?;
        text.push_str("\n")?;
        Ok(text)
    }
}

// The printed order tells the order: two summaries with the same counts that print alike have the same order, or none.
pub fn summary_told_stands() -> u8
    ensures order { OrderTold }
    ensures summary { SummaryTold }
{
    0
}
