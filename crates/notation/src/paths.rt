// The lines of a text that name a file.
ghost use Rattle.std.specs.Prelude.{◌≡◌, option_copied};
ghost use Rattle.notation.specs.Left.{named_left};
ghost use Rattle.notation.specs.Paths.{path_of, named_at, NamedThere};

use crate::lines::{split_once, without_return};
use crate::parsed::{Parsed, parse};

// A file that a line names: its path, the places in the text where the path begins and ends, and the place behind the line.
#[derive(Clone, Copy, Debug)]
pub struct NamedFile<'a> {
    pub path: &'a [u8],
    pub start: usize,
    pub end: usize,
    pub next: usize,
}

// The path that a line without its carriage return names.
fn path_of(line: &[u8]) -> Option<&[u8]>
    ensures { option_copied result ≡ path_of line.now }
{
    match parse(line) {
        Ok(Parsed::File { party: _, path }) => Some(path),
        _ => None,
    }
}

// The files that the lines of a text name, one after another, from a place on, at which a line begins.
#[derive(Clone, Copy, Debug)]
pub struct Paths<'a> {
    pub text: &'a [u8],
    pub at: usize,
}

impl<'a> Paths<'a> {
    pub fn new(text: &'a [u8]) -> Paths<'a>
        ensures is { named_left result ≡ named_at text.now 0 }
        ensures there { NamedThere text.now }
    {
        Paths { text, at: 0 }
    }
}

impl<'a> Iterator for Paths<'a> {
    ghost use Rattle.std.specs.Iterator.{YieldsFirstBy, item_count};
    ghost use Rattle.notation.specs.Left.{named_of, named_left};

    type Item = NamedFile<'a>;

    ghost next_gives = { YieldsFirstBy named_of named_left };

    ghost remaining = { item_count named_left };

    // The places are counted, since they are what is told.
    fn next(&mut self) -> Option<NamedFile<'a>> {
        while self.at < self.text.len() {
            let at = self.at;
            let (whole, _) = split_once(&self.text[at..], b'\n');
            let line = without_return(whole);
            self.at = at + (whole.len() + 1);
            if let Some(path) = path_of(line) {
                let end = at + line.len();
                return Some(NamedFile {
                    path,
                    start: end.saturating_sub(path.len()),
                    end,
                    next: self.at,
                });
            }
        }
        None
    }
}
