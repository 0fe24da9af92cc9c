// A refusal in a sentence.
ghost use Rattle.std.specs.Prelude.{◌≡◌};
ghost use Rattle.output.specs.Writes.{Writes};
ghost use Rattle.report_text.specs.Report.{reason, sentence};

use output::Output;
use refusals::Refusal;

// The rules of a protocol refuse for four reasons.
fn reason(why: Refusal) -> &'static [u8]
    ensures { result.now ≡ reason why }
{
    match why {
        Refusal::ProtocolLength(_) => b"the protocol ends too early, or goes on behind its end",
        Refusal::OutOfRange(_) =>
            b"a count, a length, a name or an opened byte is out of range, or a name is not above the one before",
        Refusal::BadOpening(_) | Refusal::NoneOpened =>
            b"the opening of this party does not give its seal, or, at 255, no party opened",
        // the refusals of steps never come of a protocol, and have no words of their own
        Refusal::WrongOrder(_)
        | Refusal::NameLength(_)
        | Refusal::NameTaken
        | Refusal::WrongTime
        | Refusal::BitsLength
        | Refusal::SealLength(_)
        | Refusal::TooManySeals
        | Refusal::NoSuchParty(_)
        | Refusal::OpeningLength(_)
        | Refusal::WrongOpening(_)
        | Refusal::Nothing(_)
        | Refusal::NoRoom(_) => b"the order is not the one that is drawn from the openings",
    }
}

pub(crate) fn put_sentence(out: &mut Output, why: Refusal)
    ensures { Writes out.old out.new (sentence why) }
{
    out.put(b"refused ");
    out.put_decimal(why.number());
    out.put(b" at ");
    out.put_decimal(why.place());
    out.put(b": ");
    out.put(reason(why));
    out.put(b"\n");
}
