// Which bytes have a code, without a branch on them.
// A byte's rank is 0 where it has one; a block without a code is found by its least rank.
ghost use Rattle.std.specs.Prelude.{◌≡◌, ◌≤◌};
ghost use Rattle.stuffing.specs.Stuff.{escape_of, stuff};

use marks::{ESC, START};

// 0 where a byte of the block has a code.
pub(crate) fn least_rank(block: &[u8; 16]) -> u8
    ensures { 1 ≤ result → stuff block.now ≡ block.now }
{
    let mut least = u8::MAX;
    for &b in block {
        least = least.min(rank(b));
    }
    least
}

// 0 for a byte that has a code, and for no other.
fn rank(b: u8) -> u8
    ensures { 1 ≤ result → escape_of b ≡ 0 }
{
    let marker = b.wrapping_sub(START) / 2;
    marker.min(b.wrapping_sub(0xFA)).min(b.wrapping_sub(ESC))
}
