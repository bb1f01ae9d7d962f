// The tests of a place: whether a field there lies within a length, and the need that a refusal names.
// No sum here can wrap.
ghost use Rattle.std.specs.Prelude.{◌≡◌, ◌+◌, leb};
ghost use Rattle.integer.specs.Fields.{need_at};

// Whether k bytes at a place lie within len. No sum, so nothing to wrap; len - k is the same at every place.
pub fn within(len: usize, offset: usize, k: usize) -> bool
    ensures { result ≡ leb (offset + k) len }
{
    k <= len && offset <= len - k
}

// The need of a field: place plus width, or the largest usize where that passes it.
pub fn need_at(offset: usize, width: usize) -> usize
    ensures { result ≡ need_at width offset }
{
    offset.saturating_add(width)
}
