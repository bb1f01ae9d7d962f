// What a cable hears, printed: how it cuts, a line for each event, and at the end the state, its counts and the bytes held.
// More is not printed: it depends on the cut. Each function answers whether all of it was written.
ghost use Rattle.std.specs.Prelude.{◌<◌};

use itoa::Buffer;
use splitter::{Event, FrameSplitter, Place};

pub(crate) fn begin(rt: &HostRuntime, name: &[u8], room: usize) -> bool {
    print(rt, name) && number(rt, room as u64) && print(rt, b"\n")
}

// A frame by its bytes.
pub(crate) fn answer<'a>(rt: &HostRuntime, event: Event, chunk: &'a [u8], hold: &'a [u8]) -> bool {
    match event {
        Event::Frame(place) => line(rt, b"frame", view::view(chunk, hold, place)),
        Event::Overlong => print(rt, b"overlong\n"),
        Event::More => true,
    }
}

// The count, the mark and the five counts, then the bytes that are held.
pub(crate) fn end(rt: &HostRuntime, splitter: FrameSplitter, hold: &[u8]) -> bool {
    let len = splitter.count;
    let counts = splitter.counts;
    let held = Place {
        in_hold: true,
        start: 0,
        len,
    };
    print(rt, b"end")
        && number(rt, len as u64)
        && number(rt, splitter.skipping as u64)
        && number(rt, counts.taken)
        && number(rt, counts.dropped)
        && number(rt, counts.framed)
        && number(rt, counts.lost)
        && number(rt, counts.held)
        && line(rt, b"\nheld", view::view(b"", hold, held))
}

fn number(rt: &HostRuntime, n: u64) -> bool {
    let mut digits = Buffer::new();
    print(rt, b" ") && print(rt, digits.format(n).as_bytes())
}

fn line(rt: &HostRuntime, name: &[u8], bytes: &[u8]) -> bool {
    print(rt, name) && bytes.iter().all(|b| byte(rt, *b)) && print(rt, b"\n")
}

fn byte(rt: &HostRuntime, n: u8) -> bool {
    print(rt, &[b' ', hex_digit(n / 16), hex_digit(n % 16)])
}

// `0` to `9`, then `a` to `f`. By hand: `program::write` takes bytes and tells what failed, which a
// printing macro leaves to each call.
fn hex_digit(d: u8) -> u8
    requires { d < 16 }
{
    if d < 10 { b'0' + d } else { b'a' + (d - 10) }
}

fn print(rt: &HostRuntime, text: &[u8]) -> bool {
    program::write(rt, b"cables_run", text)
}
