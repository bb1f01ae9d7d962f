// Test: document 01's 'Run' cases of the splitter as the program's lines, then a capture on standard input as `frames` prints it.
// Its example, a frame as long as the hold buffer and one longer, hold buffers of 1 and 0 bytes, each at once and then cut in two.
#![tactic(auto)]

use error::WireError;
use session::Session;
use splitter::FrameSplitter;

fn main(rt: HostRuntime) {
    if program::alone(
        &rt,
        program::word_count(&rt),
        b"usage: ./run frames_run < CAPTURE\n",
    ) && examples(&rt)
    {
        capture::print_all(&rt);
    }
}

// The example and an F0 behind it, which stays open: held where H is 1 or more, else the mark is set. Answers whether all was written.
fn examples(rt: &HostRuntime) -> bool {
    let bytes = [
        0x00u8, 0xF0, 0x40, 0x10, 0x01, 0x00, 0x51, 0xF1, 0xF0, 0xF1, 0xF0,
    ];
    let stream = &bytes[..];
    let mut large = [0u8; 2048];
    let mut seven = [0u8; 7];
    let mut six = [0u8; 6];
    let mut one = [0u8; 1];
    let mut none = [0u8; 0];
    both(rt, &mut large, &stream[0..10])
        && both(rt, &mut seven, stream)
        && both(rt, &mut six, stream)
        && both(rt, &mut one, stream)
        && both(rt, &mut none, stream)
}

// A stream at once, then cut after its third byte.
fn both(rt: &HostRuntime, hold: &mut [u8], stream: &[u8]) -> bool {
    if stream.len() < 3 {
        return false;
    }
    let (first, second) = stream.split_at(3);
    show(rt, hold, b"", stream) && show(rt, hold, first, second)
}

// The lines of a stream in two pieces, and the line at the end.
fn show(rt: &HostRuntime, hold: &mut [u8], first: &[u8], second: &[u8]) -> bool {
    let mut session = Session::new();
    piece(rt, &mut session, hold, first)
        && piece(rt, &mut session, hold, second)
        && end(rt, session.splitter)
}

fn piece(rt: &HostRuntime, session: &mut Session, hold: &mut [u8], chunk: &[u8]) -> bool {
    let mut lines = [0u8; 2048];
    let reply = session.piece(hold, chunk, &mut lines);
    print(rt, reply, &lines)
}

fn end(rt: &HostRuntime, splitter: FrameSplitter) -> bool {
    let mut lines = [0u8; 128];
    let reply = report::end_line(splitter.count, splitter.skipping, &mut lines);
    print(rt, reply, &lines)
}

fn print(rt: &HostRuntime, reply: Result<usize, WireError>, lines: &[u8]) -> bool {
    program::write(rt, b"frames_run", session::text_of(reply, lines))
}
