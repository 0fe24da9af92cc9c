// Numbers in two bytes, low byte first.
ghost use Rattle.std.specs.Prelude.{◌≡◌, ◌+◌, ◌^◌, ◌<◌, ◌++◌, OnOk};
ghost use Rattle.protocol.specs.Layout.{word_at};
ghost use Rattle.protocol.specs.Protocol.{word};

use parts::byte_at;
use std::alloc::AllocError;

// The number at a place; past the end count zeros.
pub(crate) fn word_at(bytes: &[u8], at: usize) -> u16
    requires { at + 1 < 2 ^ 64 }
    ensures { result ≡ word_at bytes.now at }
{
    u16::from_le_bytes([byte_at(bytes, at), byte_at(bytes, at + 1)])
}

pub(crate) fn write_word(out: &mut Vec<u8>, n: u16) -> Result<(), AllocError>
    ensures { OnOk result (out.new.items ≡ out.old.items ++ word n) }
{
    out.extend_from_slice(&n.to_le_bytes())
}
