// Writing: a string is stuffed at a place of the buffer, and the place after it is told.
// What is stored is the stuffed string, and nothing else changes. Buffer and place stay two parameters: with a writer that holds both,
// each contract would still tell the bytes and the place after them.
ghost use Rattle.std.specs.Prelude.{◌≡◌, ◌+◌, ◌<◌, ◌≤◌, length, take};
ghost use Rattle.std.proofs.lemmas.List.Edits.{sets};
ghost use Rattle.stuffing.specs.Stuff.{stuff};

use crate::placing::put_part;
use crate::ranking::least_rank;
use blocks::put_block;

// A whole string: blocks without a code as they stand, and wherever there is one, the next bytes by their codes.
pub(crate) fn put_all(s: &[u8], buf: &mut [u8], at: usize) -> usize
    requires { at + length (stuff s.now) ≤ length buf.old }
    ensures { (result ≡ at + length (stuff s.now)) × (buf.new ≡ sets buf.old at (stuff s.now)) }
{
    let mut rest = s;
    let mut o = at;
    while !rest.is_empty() {
        let plain = put_blocks(rest, buf, o);
        let left = &rest[plain..];
        let (part, behind) = left.split_at(part_len(left.len(), plain));
        o = put_part(part, buf, o + plain);
        rest = behind;
    }
    o
}

// The blocks of sixteen in front that have no code; how many bytes they are.
fn put_blocks(s: &[u8], buf: &mut [u8], at: usize) -> usize
    requires { at + length (stuff s.now) ≤ length buf.old }
    ensures { (result ≤ length s.now)
        × (stuff (take result s.now) ≡ take result s.now)
        × (buf.new ≡ sets buf.old at (take result s.now)) }
{
    let mut plain = 0;
    let mut rest = s;
    while let Some((block, behind)) = rest.split_first_chunk::<16>() {
        if least_rank(block) == 0 {
            return plain;
        }
        put_block(*block, buf, at + plain);
        plain += 16;
        rest = behind;
    }
    plain
}

// How long the next part is, of the bytes that are left: two blocks, or four where codes stand so close that no plain block came before it.
fn part_len(left: usize, plain: usize) -> usize
    ensures { (result ≤ left) × (result ≤ 64) × (0 < left → 0 < result) }
{
    left.min(if plain > 0 { 32 } else { 64 })
}
