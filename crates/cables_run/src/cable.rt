// A cable: it cuts a capture into pieces, and offers each, and each untaken rest of it again, to a splitter that started fresh.
// What is heard is printed as it comes. Each function answers whether all of it could be printed.
use crate::heard;
use splitter::FrameSplitter;

// One byte at a time. Hold buffer and capture are two buffers of the caller's, lent for one call.
pub(crate) fn by_bytes(rt: &HostRuntime, hold: &mut [u8], capture: &[u8]) -> bool {
    let mut splitter = FrameSplitter::new();
    heard::begin(rt, b"by bytes, hold", hold.len())
        && capture
            .chunks(1)
            .all(|piece| offer(rt, &mut splitter, hold, piece))
        && heard::end(rt, splitter, hold)
}

// In pieces of many sizes, an empty one before each: a piece has a byte, or by its place, up to 509.
pub(crate) fn by_pieces(rt: &HostRuntime, hold: &mut [u8], capture: &[u8]) -> bool {
    if !heard::begin(rt, b"by pieces, hold", hold.len()) {
        return false;
    }
    let mut splitter = FrameSplitter::new();
    let mut rest = capture;
    while !rest.is_empty() {
        let at = capture.len() - rest.len();
        let (piece, behind) = rest.split_at((at % 509 + 1).min(rest.len()));
        if !offer(rt, &mut splitter, hold, b"") || !offer(rt, &mut splitter, hold, piece) {
            return false;
        }
        rest = behind;
    }
    heard::end(rt, splitter, hold)
}

// A piece until none of it is left; an empty one is offered once.
// A proved loop has to end: no piece uses up the turns that are counted here.
fn offer(rt: &HostRuntime, splitter: &mut FrameSplitter, hold: &mut [u8], piece: &[u8]) -> bool {
    let mut rest = piece;
    for _ in 0..u64::MAX {
        let Ok(fed) = splitter.feed(hold, rest) else {
            program::tell(rt, b"cables_run: a call was refused\n");
            return false;
        };
        if !heard::answer(rt, fed.event, rest, hold) {
            return false;
        }
        rest = &rest[fed.taken..];
        if rest.is_empty() {
            break;
        }
    }
    true
}
