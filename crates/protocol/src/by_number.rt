// Parts of a protocol by their number, as its counts and lengths place them.
ghost use Rattle.std.specs.Prelude.{◌≡◌};
ghost use Rattle.protocol.specs.Check.{hash_of};
ghost use Rattle.protocol.specs.Layout.{bits_length, name_of, opened_in};

use crate::layout::Layout;
use crate::names::Name;

// The name of a number of the list.
pub fn name(protocol: &[u8], number: u16) -> &[u8]
    ensures { result.now ≡ name_of protocol.now number }
{
    Name::of(protocol, number).text()
}

// The hash of the list.
pub fn list_hash(protocol: &[u8]) -> [u8; 32]
    ensures { result ≡ hash_of protocol.now }
{
    Layout::of(protocol).list_hash()
}

// How many bytes each party puts in.
pub fn bits_length(protocol: &[u8]) -> u16
    ensures { result ≡ bits_length protocol.now }
{
    Layout::of(protocol).length()
}

// Whether the party of a number opened.
pub fn has_opened(protocol: &[u8], party: u8) -> bool
    ensures { result ≡ opened_in protocol.now party }
{
    Layout::of(protocol).party(party).has_opened()
}
