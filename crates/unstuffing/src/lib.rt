// Unstuffing of frame.rs: FD and a code are one byte again; the first wrong escape is refused, one that is cut off by a number of its own.
// `unstuffed` counts the bytes that a string unstuffs to. Unstuffing what was stuffed gives it back (proofs/Unstuffing).
#![tactic(auto)]

ghost use Rattle.std.specs.Prelude.{◌≡◌, ◌+◌, ◌-◌, ◌%◌, ◌<◌, ◌&&◌, IfSome, length, drop, nat_eq, slice_index};
ghost use Rattle.error.specs.Refusal.{on_yes};
ghost use Rattle.error.specs.Result.{told};
ghost use Rattle.stuffing.specs.Stuff.{unescape_of};
ghost use Rattle.unstuffing.specs.Escapes.{Proper};
ghost use Rattle.unstuffing.specs.Private.{kept};
ghost use Rattle.unstuffing.specs.Unstuff.{step_at, unstuff};

use error::WireError;
use marks::ESC;
use stuffing::{select, unescape};

// How many bytes a string unstuffs to, or its first wrong escape.
pub fn unstuffed(s: &[u8]) -> Result<usize, WireError>
    ensures { told result ≡ on_yes length (unstuff 0 s.now) }
{
    let n = s.len();
    if n < 65536 {
        if let Some(escapes) = survey(s) {
            return Ok(n - usize::from(escapes));
        }
    }
    count(s)
}

// The unstuffing step: the byte that the string has at a place, FD and its code being one byte.
#[tactic(auto, unfolding(crate::specs::Unstuff::step_by, crate::specs::Unstuff::escape_by))]
fn step(s: &[u8], i: usize) -> Result<u8, WireError>
    requires { i < length s.now }
    ensures { told result ≡ step_at i (slice_index s.now i) (drop (i + 1) s.now) }
{
    let b = s[i];
    if b != ESC {
        return Ok(b);
    }
    let n = s.len();
    if n - i < 2 {
        return Err(WireError::CutEscape { offset: i });
    }
    let code = s[i + 1];
    let decoded = unescape(code);
    if decoded == 0 {
        return Err(WireError::InvalidEscape { code, offset: i });
    }
    Ok(decoded)
}

// Step by step: how many bytes a string unstuffs to, or its first wrong escape. A step takes one byte or two, so no iterator walks it.
fn count(s: &[u8]) -> Result<usize, WireError>
    ensures { told result ≡ on_yes length (unstuff 0 s.now) }
{
    let mut i = 0;
    let mut n = 0;
    while i < s.len() {
        step(s, i)?;
        i += select(s[i], ESC, 2, 1) as usize;
        n += 1;
    }
    Ok(n)
}

// Whether p is FD and c, which follows it, is no code.
fn is_fault(p: u8, c: u8) -> bool
    ensures { result ≡ (nat_eq p 0xFD && nat_eq (unescape_of c) 0) }
{
    p == ESC && unescape(c) == 0
}

// How many FDs a string has, which wraps at 65,536, if each is followed by a code. All pairs of neighbours at once: no step depends
// on the one before. By `windows` or `zip` it takes up to twice as long for a string below 160 bytes.
fn survey(s: &[u8]) -> Option<u16>
    ensures { IfSome result (λ n. Proper s.now × ((n + kept s.now) % 65536 ≡ length s.now % 65536)) }
{
    let last = s.last().copied().unwrap_or(0);
    let mut escapes = u16::from(last == ESC);
    let mut is_wrong = is_fault(last, 0);
    for i in 1..s.len() {
        let before = s[i - 1];
        escapes = escapes.wrapping_add(u16::from(before == ESC));
        is_wrong |= is_fault(before, s[i]);
    }
    if is_wrong { None } else { Some(escapes) }
}
