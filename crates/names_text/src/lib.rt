// Whether the bytes of a name are text that people can read: characters in UTF-8, none of them a control character.
#![tactic(auto)]

ghost use Rattle.std.specs.Prelude.{◌≡◌, Decides};
ghost use Rattle.names_text.specs.Laws.{Characters, OneLine};
ghost use Rattle.names_text.specs.Text.{is_text};

use std::str::from_utf8;

// Whether bytes are at least one character in UTF-8, and none is a control character.
pub fn is_text(bytes: &[u8]) -> bool
    ensures is { result ≡ is_text bytes.now }
    ensures characters { Decides result (Characters bytes.now) }
{
    match from_utf8(bytes) {
        Ok(text) => !text.is_empty() && !text.chars().any(|c| c.is_control()),
        Err(_) => false,
    }
}

// Text has no byte below 32, so that it stands on one line.
pub fn one_line_stands() -> u8
    ensures { OneLine }
{
    0
}
