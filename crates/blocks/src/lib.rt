// Sixteen bytes at once: a block of a string, and a block stored in a buffer where it fits.
// `block` and `put_block` are what their contracts say of the whole string and the whole buffer.
#![tactic(auto)]

ghost use Rattle.std.specs.Prelude.{◌≡◌, cond, ◌++◌, ◌+◌, leb, length, take, replicate};
ghost use Rattle.std.proofs.lemmas.List.Edits.{sets};

use integer::byte_at;

// The first sixteen bytes of a string; past its end they are 0.
pub fn block(s: &[u8]) -> [u8; 16]
    ensures { result ≡ take 16 (s.now ++ replicate 16 0) }
{
    let mut a = [0u8; 16];
    for (k, x) in a.iter_mut().enumerate() {
        *x = byte_at(s, k);
    }
    a
}

// A block at a place of a buffer, if it fits there.
pub fn put_block(a: [u8; 16], buf: &mut [u8], at: usize)
    ensures { buf.new ≡ cond (leb (at + 16) (length buf.old)) (sets buf.old at a) buf.old }
{
    if buf.len() < 16 {
        return;
    }
    if at > buf.len() - 16 {
        return;
    }
    buf[at..at + 16].copy_from_slice(&a);
}
