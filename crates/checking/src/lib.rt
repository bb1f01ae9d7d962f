// Checking a wire of frame.rs: F0, stuffed(DEST SRC TYPE PAYLOAD CS_HI CS_LO), F1. Nothing is copied.
// `check` answers what specs/Rule says: the first test that fails, or the header and where the payload lies (proofs/Located).
#![tactic(auto)]

ghost use Rattle.std.specs.Prelude.{◌≡◌, ◌+◌, ◌-◌, ◌*◌, ◌<◌, ◌≤◌, length, drop, get_or};
ghost use Rattle.error.specs.Refusal.{on_yes, and_then};
ghost use Rattle.error.specs.Result.{told};
ghost use Rattle.unstuffing.specs.Unstuff.{unstuff};
ghost use Rattle.unstuffing.specs.Escapes.{Proper};
ghost use Rattle.unstuffing.specs.Private.{kept, width_of, value_of};
ghost use Rattle.checking.specs.Rule.{sum_rule, units_rule, check_rule, head_at, head_of};
ghost use Rattle.checking.specs.Private.{Ends, front_rule};

use addr::BusAddr;
use error::WireError;
use marks::{END, ESC, START};
use stuffing::{checksum, select, unescape};
use unstuffing::unstuffed;

// A wire's header, its payload's length, and the two places of the wire between which the payload's stuffed bytes stand: places and not
// the part itself, as specs/Rule and proofs/Located speak of them.
#[derive(Drop)]
pub struct Head {
    pub dest: BusAddr,
    pub src: BusAddr,
    pub type_id: u8,
    pub len: usize,
    pub from: usize,
    pub to: usize,
}

// The header of a wire, and where its payload lies, or the first test that it fails.
pub fn check(wire: &[u8]) -> Result<Head, WireError>
    ensures { told result ≡ on_yes (head_of wire.now) (check_rule wire.now) }
{
    let n = wire.len();
    if n < 7 {
        return Err(WireError::FrameTooShort { len: n });
    }
    let first = wire[0];
    if first != START {
        return Err(WireError::MissingStart { got: first });
    }
    let end = n - 1;
    if wire[end] != END {
        return Err(WireError::MissingEnd);
    }
    check_interior(&wire[1..end], n)
}

// ---- finding the way in a proper string: what is asked of it stands at each function, for these are parts, cut anew for each call

// The unstuffed byte at a place, and the place after it.
fn value(s: &[u8], i: usize) -> u8
    requires { (Proper (drop i s.now)) × (i < length s.now) }
    ensures { result ≡ value_of (drop i s.now) }
{
    let b = s[i];
    if b != ESC {
        return b;
    }
    unescape(s[i + 1])
}

fn next(s: &[u8], i: usize) -> usize
    requires { i < length s.now }
    ensures { result ≡ i + width_of (get_or s.now i 0) }
{
    i + select(s[i], ESC, 2, 1) as usize
}

// Where the last unstuffed byte starts.
fn cut(s: &[u8]) -> usize
    requires { 2 ≤ length s.now }
    ensures { result ≡ length s.now - width_of (get_or s.now (length s.now - 2) 0) }
{
    let n = s.len();
    n - select(s[n - 2], ESC, 2, 1) as usize
}

// Where the checksum starts.
fn checksum_at(s: &[u8]) -> usize
    requires { (Proper s.now) × (5 ≤ kept s.now) }
    ensures { Ends s.now result }
{
    let low = cut(s);
    cut(&s[..low])
}

// ---- the tests, from the last to the first

fn received(s: &[u8], at: usize) -> u16
    requires { Ends s.now at }
    ensures { result ≡ value_of (drop at s.now) * 256 + value_of (drop (at + width_of (get_or s.now at 0)) s.now) }
{
    let high = value(s, at);
    let low = value(s, next(s, at));
    u16::from_be_bytes([high, low])
}

// What precedes the checksum: in the wire it starts at 1.
fn check_head(body: &[u8], len: usize) -> Result<Head, WireError>
    requires { (Proper body.now) × (3 ≤ kept body.now) }
    ensures { told result ≡ and_then (unstuff 0 body.now) (front_rule len (length body.now)) }
{
    let src_at = next(body, 0);
    let type_at = next(body, src_at);
    let from = next(body, type_at) + 1;
    let dest = BusAddr::from_byte(value(body, 0))?;
    let src = BusAddr::from_byte(value(body, src_at))?;
    Ok(Head {
        dest,
        src,
        type_id: value(body, type_at),
        len,
        from,
        to: body.len() + 1,
    })
}

fn check_sum(s: &[u8], n: usize) -> Result<Head, WireError>
    requires { (Proper s.now) × (n ≡ kept s.now) × (5 ≤ n) }
    ensures { told result ≡ and_then (unstuff 0 s.now) (λ us. on_yes (head_at us) (sum_rule s.now us)) }
{
    let at = checksum_at(s);
    let expected = received(s, at);
    let body = &s[..at];
    let computed = checksum(body);
    if expected != computed {
        return Err(WireError::ChecksumMismatch { expected, computed });
    }
    check_head(body, n - 5)
}

fn check_interior(s: &[u8], whole: usize) -> Result<Head, WireError>
    ensures { told result ≡ and_then (unstuff 0 s.now) (λ us. on_yes (head_at us) (units_rule whole s.now us)) }
{
    let n = unstuffed(s)?;
    if n < 5 {
        return Err(WireError::FrameTooShort { len: whole });
    }
    check_sum(s, n)
}
