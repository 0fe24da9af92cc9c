// The forms of a line, by the words that they begin with.
ghost use Rattle.std.specs.Prelude.{◌≡◌};
ghost use Rattle.notation.specs.Forms.{words, form_of};

#[derive(Clone, Copy)]
pub(crate) enum Form {
    Entry,
    EntryHex,
    CloseList,
    Seal,
    CloseSeals,
    Opening,
    Close,
    StepHex,
}

// Those of a close stand before `close` alone, which their words begin with.
const FORMS: [Form; 8] = [
    Form::Entry,
    Form::EntryHex,
    Form::CloseList,
    Form::Seal,
    Form::CloseSeals,
    Form::Opening,
    Form::Close,
    Form::StepHex,
];

impl Form {
    pub(crate) fn words(self) -> &'static [u8]
        ensures { result.now ≡ words self }
    {
        match self {
            Form::Entry => b"entry ",
            Form::EntryHex => b"entry-hex ",
            Form::CloseList => b"close list ",
            Form::Seal => b"seal ",
            Form::CloseSeals => b"close seals",
            Form::Opening => b"opening ",
            Form::Close => b"close",
            Form::StepHex => b"step-hex ",
        }
    }
}

// The form of a line: the first whose words it begins with.
pub(crate) fn form_of(line: &[u8]) -> Option<Form>
    ensures { result ≡ form_of line.now }
{
    FORMS
        .iter()
        .copied()
        .find(|form| line.starts_with(form.words()))
}
