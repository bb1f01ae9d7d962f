// A sink that is not steady: what is so of it between two pieces is not so of every value.
// No contract says which bytes a sink is handed: the last one of a piece is looked at here.
use crate::{Sink, read_all};
use std::test::Fail;

// How many bytes came, in how many pieces, and the last of them.
#[derive(Drop)]
struct Sum {
    bytes: u64,
    pieces: u64,
    last: u8,
}

impl Sink<4> for Sum {
    ghost use Rattle.std.specs.Prelude.{◌*◌, ◌≤◌};

    ghost stands = { λ s. s.bytes ≤ 4 * s.pieces };

    fn take(&mut self, _rt: &HostRuntime, piece: &[u8]) -> bool {
        self.bytes = self.bytes.saturating_add(piece.len() as u64);
        self.pieces = self.pieces.saturating_add(1);
        self.last = piece.last().copied().unwrap_or(0);
        true
    }
}

#[test]
fn takes_pieces(rt: HostRuntime) -> Result<(), Fail> {
    let mut sum = Sum {
        bytes: 0,
        pieces: 0,
        last: 0,
    };
    assert!(rt; sum.take(&rt, b"abcd"));
    assert!(rt; sum.take(&rt, b"xy"));
    // a test has no input, so that the end comes at once
    assert!(rt; read_all(&rt, b"test", &mut sum));
    assert_eq!(rt; (sum.bytes, sum.pieces, sum.last), (6, 2, b'y'));
    Ok(())
}
