// The running checksum: of a string as it stands, and of one that is stuffed, with its length.
// Sums wrap at 65,536.
ghost use Rattle.std.specs.Prelude.{◌≡◌, ◌-◌, ◌%◌, length};
ghost use Rattle.stuffing.specs.Stuff.{stuff, sum16};

use crate::coding::{escape_code, select};
use marks::ESC;

// A byte as a sum takes it. Here `u16::from` is written; the name stays for those who call it.
pub fn wide(b: u8) -> u16
    ensures { result ≡ b }
{
    u16::from(b)
}

// The running checksum of a string.
pub fn checksum(s: &[u8]) -> u16
    ensures { result ≡ sum16 s.now }
{
    s.iter()
        .fold(0u16, |sum, &b| sum.wrapping_add(u16::from(b)))
}

// Of a string that is stuffed: how many bytes longer it gets, and its running checksum; both wrap at 65,536.
#[derive(Drop)]
pub struct Stuffed {
    pub more: u16,
    pub sum: u16,
}

pub fn tally(s: &[u8]) -> Stuffed
    ensures more { result.more ≡ (length (stuff s.now) - length s.now) % 65536 }
    ensures sum { result.sum ≡ sum16 (stuff s.now) }
{
    let mut more: u16 = 0;
    let mut sum: u16 = 0;
    for &b in s {
        let c = escape_code(b);
        more = more.wrapping_add(u16::from(select(c, 0, 0, 1)));
        sum = sum.wrapping_add(u16::from(select(c, 0, b, ESC)) + u16::from(c));
    }
    Stuffed { more, sum }
}
