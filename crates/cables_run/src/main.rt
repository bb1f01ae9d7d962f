// Test: what two cables hear of a capture on standard input: the same, one byte at a time and in pieces of many sizes (request 14).
// A hold buffer of 256 bytes, then one of 8; each is lent to both cables, so that the second finds in it what the first left there.
#![tactic(auto)]

mod cable;
mod heard;

ghost use Rattle.std.specs.Prelude.{◌≤◌, IfSome, length};

use crate::cable::{by_bytes, by_pieces};

fn main(rt: HostRuntime) {
    if program::alone(
        &rt,
        program::word_count(&rt),
        b"usage: ./run cables_run < CAPTURE\n",
    ) {
        let mut room = [0u8; 65536];
        if let Some(len) = read_all(&rt, &mut room) {
            if len < room.len() {
                both(&rt, &room[..len]);
            } else {
                program::tell(
                    &rt,
                    b"cables_run: the capture has more than 65535 bytes: give it a part, as head -c 65535 does\n",
                );
            }
        }
    }
}

fn both(rt: &HostRuntime, capture: &[u8]) -> bool {
    let mut large = [0u8; 256];
    let mut small = [0u8; 8];
    twice(rt, &mut large, capture) && twice(rt, &mut small, capture)
}

fn twice(rt: &HostRuntime, hold: &mut [u8], capture: &[u8]) -> bool {
    by_bytes(rt, hold, capture) && by_pieces(rt, hold, capture)
}

// All of the input at the front of room, and how many bytes came: as many as there is room for, where its end was not seen. None where a
// read failed, and that was told. No `Sink`: this reads into one room until it is full, where that takes piece after piece.
fn read_all(rt: &HostRuntime, room: &mut [u8]) -> Option<usize>
    ensures { IfSome result (λ len. len ≤ length room.new) }
{
    let mut len = 0;
    while len < room.len() {
        match program::read(rt, b"cables_run", &mut room[len..]) {
            Some(0) => break,
            Some(n) => len += n,
            None => return None,
        }
    }
    Some(len)
}
