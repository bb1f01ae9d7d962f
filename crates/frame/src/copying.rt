// Copying: what stuffed bytes stand for, without a branch on them.
// `copy` fills a buffer that is just as long as that; sixteen bytes with no escape are copied at once.
ghost use Rattle.std.specs.Prelude.{◌≡◌, ◌++◌, ◌+◌, ◌≤◌, false, length, take};
ghost use Rattle.unstuffing.specs.Private.{kept};
ghost use Rattle.frame.specs.Private.{raw, slots};

use marks::ESC;
use stuffing::{select, unescape};

// A whole buffer.
pub(crate) fn copy(s: &[u8], buf: &mut [u8])
    requires { (kept s.now ≡ length buf.old) × (slots s.now ≤ length buf.old) }
    ensures { buf.new ≡ raw 0 s.now }
{
    let mut before: u8 = 0;
    let mut o = 0;
    let mut rest = s;
    while let Some((block, behind)) = rest.split_first_chunk::<16>() {
        o = walk_sixteen(block, before, buf, o);
        before = block[15];
        rest = behind;
    }
    walk(rest, before, buf, o);
}

// `walk` of sixteen bytes: if none of them is FD, they are copied as they stand.
fn walk_sixteen(block: &[u8; 16], before: u8, buf: &mut [u8], at: usize) -> usize
    requires { at + slots block.now ≤ length buf.old }
    ensures { (result ≡ at + kept block.now) × (take result buf.new ≡ take at buf.old ++ raw before block.now) }
{
    if has_escape(block) | (before == ESC) {
        return walk(block, before, buf, at);
    }
    buf[at..at + 16].copy_from_slice(block);
    at + 16
}

// From a place of the buffer on; answers the place after the last byte. At FD it writes what the next byte overwrites.
fn walk(s: &[u8], before: u8, buf: &mut [u8], at: usize) -> usize
    requires { at + slots s.now ≤ length buf.old }
    ensures { (result ≡ at + kept s.now) × (take result buf.new ≡ take at buf.old ++ raw before s.now) }
{
    let mut p = before;
    let mut o = at;
    for &b in s {
        buf[o] = select(p, ESC, unescape(b), b);
        o += select(b, ESC, 0, 1) as usize;
        p = b;
    }
    o
}

// Whether a byte of the block is FD; each is looked at, so that there is no branch.
fn has_escape(block: &[u8; 16]) -> bool
    ensures { result ≡ false → kept block.now ≡ 16 }
{
    block.iter().fold(false, |any, &b| any | (b == ESC))
}
