// Parts of bytes and of other rows, for every place: nothing past the end.
#![tactic(auto)]

ghost use Rattle.std.specs.Prelude.{◌≡◌, drop, slice_index, take};
ghost use Rattle.parts.specs.Parts.{between};

// The byte at a place, and 0 past the end.
pub fn byte_at(bytes: &[u8], at: usize) -> u8
    ensures { result ≡ slice_index bytes.now at }
{
    bytes.get(at).copied().unwrap_or(0)
}

// The items from a place on, none past the end.
pub fn behind<T>(items: &[T], at: usize) -> &[T]
    ensures { result.now ≡ drop at items.now }
{
    &items[at.min(items.len())..]
}

// The items before a place, all of them past the end.
pub fn front<T>(items: &[T], end: usize) -> &[T]
    ensures { result.now ≡ take end items.now }
{
    &items[..end.min(items.len())]
}

// So many items from a place on, as far as they go.
pub fn part<T>(items: &[T], from: usize, size: usize) -> &[T]
    ensures { result.now ≡ take size (drop from items.now) }
{
    front(behind(items, from), size)
}

// The bytes from one place to another, as far as they go.
pub fn between(bytes: &[u8], from: usize, to: usize) -> &[u8]
    ensures { result.now ≡ between from to bytes.now }
{
    part(bytes, from, to.saturating_sub(from))
}
