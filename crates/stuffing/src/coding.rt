// The codes: which byte stands after FD for which, both ways.
// `select` chooses without a branch, so that a loop over a string has none.
ghost use Rattle.std.specs.Prelude.{◌≡◌, if◌then◌else◌, nat_eq};
ghost use Rattle.stuffing.specs.Stuff.{escape_of, unescape_of};

use marks::ESC;

// `same` where x is the key, else `other`.
pub fn select(x: u8, key: u8, same: u8, other: u8) -> u8
    ensures { result ≡ (if nat_eq x key then same else other) }
{
    if x == key { same } else { other }
}

// The code that stands after FD for a byte; 0 for a byte that stands for itself. No option here or below: the loops choose by the 0,
// without a branch, and docs/RELAY.md tells it to others.
#[tactic(auto, unfolding(crate::specs::Stuff::escape_of))]
pub fn escape_code(b: u8) -> u8
    ensures { result ≡ escape_of b }
{
    select(
        b,
        0xF0,
        1,
        select(b, 0xF1, 2, select(b, ESC, 3, select(b, 0xFA, 4, 0))),
    )
}

// The byte that a code stands for; 0 for any other number.
#[tactic(auto, unfolding(crate::specs::Stuff::unescape_of))]
pub fn unescape(c: u8) -> u8
    ensures { result ≡ unescape_of c }
{
    match c {
        0x01 => 0xF0,
        0x02 => 0xF1,
        0x03 => 0xFD,
        0x04 => 0xFA,
        _ => 0,
    }
}
