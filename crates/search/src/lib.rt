// The first byte b of a slice, from an index on: its index, or where the slice has none its length.
// `find` looks at byte after byte; `find_far` at sixteen at once, for a byte that is likely far off.
#![tactic(auto)]

ghost use Rattle.std.specs.Prelude.{◌≡◌};
ghost use Rattle.search.specs.First.{first_from, has};

// The index of the first b of a at or after from, or a's length. A start past the end is its own answer. No option: where there is
// none, the callers go on from the end.
// The loop is written out: `position`, and a `for` with its end after it, took 3 to 7 % longer over short frames.
pub fn find(a: &[u8], from: usize, b: u8) -> usize
    ensures { result ≡ first_from b from a.now }
{
    let mut i = from;
    while i < a.len() {
        if a[i] == b {
            return i;
        }
        i += 1;
    }
    i
}

// The same, by blocks of 16 bytes up to the block that has it.
pub fn find_far(a: &[u8], from: usize, b: u8) -> usize
    ensures { result ≡ first_from b from a.now }
{
    find(a, skip(a, from, b), b)
}

// From index from on, past the blocks of 16 bytes that have no b. The last place of a block is worked out once; the library's
// `chunks_exact` and `as_chunks`, which count the blocks, took 5 to 20 % longer.
fn skip(a: &[u8], from: usize, b: u8) -> usize
    ensures { first_from b from a.now ≡ first_from b result a.now }
{
    if a.len() < 16 {
        return from;
    }
    let last = a.len() - 16;
    let mut i = from;
    while i <= last {
        if has(&a[i..i + 16], b) {
            return i;
        }
        i += 16;
    }
    i
}

// Whether b is in a block. All bytes are looked at, so that they are compared at once.
fn has(block: &[u8], b: u8) -> bool
    ensures { result ≡ has b block.now }
{
    block.iter().fold(false, |hit, &x| hit | (x == b))
}
