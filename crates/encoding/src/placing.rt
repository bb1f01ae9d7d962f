// A part of at most 64 bytes, each by its code: first what is stored for every byte, without a branch, then where.
// FD is stored in front of every byte, and a byte that stands for itself is stored over it.
ghost use Rattle.std.specs.Prelude.{◌≡◌, ◌+◌, ◌≤◌, length};
ghost use Rattle.std.proofs.lemmas.List.Edits.{sets};
ghost use Rattle.stuffing.specs.Stuff.{stuff};
ghost use Rattle.encoding.specs.Private.{Coded};

use marks::ESC;
use stuffing::{escape_code, select};

pub(crate) fn put_part(s: &[u8], buf: &mut [u8], at: usize) -> usize
    requires { (length s.now ≤ 64) × (at + length (stuff s.now) ≤ length buf.old) }
    ensures { (result ≡ at + length (stuff s.now)) × (buf.new ≡ sets buf.old at (stuff s.now)) }
{
    let mut last = [0u8; 64];
    let mut width = [0u8; 64];
    code_each(s, &mut last, &mut width);
    place_each(s, &last, &width, buf, at)
}

// For each byte: the last byte that is stored for it, and how many are. Two lists, since with one of pairs a payload of which a third
// has codes is written 7 % slower.
fn code_each(s: &[u8], last: &mut [u8; 64], width: &mut [u8; 64])
    requires { (length s.now ≤ 64) × (length last.old ≡ 64) × (length width.old ≡ 64) }
    ensures { Coded s.now last.new width.new }
{
    for (k, &b) in s.iter().enumerate() {
        let code = escape_code(b);
        last[k] = select(code, 0, b, code);
        width[k] = select(code, 0, 1, 2);
    }
}

// By index, as two lists are read at once: the iterators of both, joined and cut to the string, say no more.
fn place_each(s: &[u8], last: &[u8; 64], width: &[u8; 64], buf: &mut [u8], at: usize) -> usize
    requires { (length s.now ≤ 64) × (at + length (stuff s.now) ≤ length buf.old)
        × Coded s.now last.now width.now }
    ensures { (result ≡ at + length (stuff s.now)) × (buf.new ≡ sets buf.old at (stuff s.now)) }
{
    let mut o = at;
    for k in 0..s.len() {
        buf[o] = ESC;
        o += width[k] as usize;
        buf[o - 1] = last[k];
    }
    o
}
