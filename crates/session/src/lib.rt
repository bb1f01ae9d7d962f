// The program's work without its input and output: a piece of the stream in, the lines of its events out.
// However the stream is cut into pieces, the lines are those of the Rust's frames (proofs/Printed).
#![tactic(auto)]

ghost use Rattle.std.specs.Prelude.{◌≡◌, ◌*◌, ◌≤◌, false, length};
ghost use Rattle.error.specs.Refusal.{yes};
ghost use Rattle.error.specs.Result.{told};
ghost use Rattle.splitter.specs.Feed.{new, is_bad, is_full, frame, answer_of};
ghost use Rattle.stream.specs.Stream.{said_of};
ghost use Rattle.report.specs.Line.{long_text};
ghost use Rattle.session.specs.Lines.{line_to};
ghost use Rattle.session.specs.Piece.{stage, room_for, all_lines, piece_rule, front_of, done_by};
ghost use Rattle.session.specs.Private.{Wrote, numbered};

use error::WireError;
use frame::RawFrame;
use splitter::{Event, FrameSplitter};

// Between two pieces: the splitter, and the number of the next event.
#[derive(Clone, Copy)]
pub struct Session {
    pub splitter: FrameSplitter,
    pub number: u64,
}

impl Session {
    pub fn new() -> Session
        ensures { result ≡ record { splitter = new; number = 0 } }
    {
        Session {
            splitter: FrameSplitter::new(),
            number: 0,
        }
    }

    // All of a piece: the lines of its events at the front of out, and how many bytes they have. What is refused alters nothing. The three
    // buffers are the caller's, lent for one call.
    pub fn piece(
        &mut self,
        hold: &mut [u8],
        chunk: &[u8],
        out: &mut [u8],
    ) -> Result<usize, WireError>
        ensures { done_by result self.new hold.new out.new ≡
            piece_rule (stage self.old hold.old) chunk.now out.old }
    {
        if self.splitter.is_bad(hold.len()) {
            return Err(WireError::BadState);
        }
        if self.splitter.is_full(chunk.len()) {
            return Err(WireError::CounterFull);
        }
        let need = room_for(chunk.len());
        let got = out.len();
        if got < need {
            return Err(WireError::NoRoom { need, got });
        }
        Ok(self.all_lines(hold, chunk, out))
    }

    // The lines of a piece's events, one behind the other, and how many bytes they have. No call of the splitter is refused.
    fn all_lines(&mut self, hold: &mut [u8], chunk: &[u8], out: &mut [u8]) -> usize
        requires hold_value { (is_bad self.old.splitter (length hold.old) ≡ false) × (is_full self.old.splitter (length chunk.now) ≡ false) }
        requires chunk_in_bounds { 128 * length chunk.now ≤ length out.old }
        ensures { done_by (Ok result) self.new hold.new out.new ≡
            all_lines (stage self.old hold.old) chunk.now out.old }
    {
        let mut rest = chunk;
        let mut written = 0;
        while !rest.is_empty() {
            let fed = self.splitter.feed(hold, rest).unwrap();
            written += self.put(fed.event, rest, hold, &mut out[written..]);
            rest = &rest[fed.taken..];
        }
        written
    }

    // The line of an event at the front of out; More has none.
    fn put(&mut self, event: Event, chunk: &[u8], hold: &[u8], out: &mut [u8]) -> usize
        requires { 128 ≤ length out.old }
        ensures after { self.new ≡ numbered self.old (said_of chunk.now hold.now (yes (answer_of event))) }
        ensures line { Wrote (line_to self.old.number (said_of chunk.now hold.now (yes (answer_of event)))) out.old result out.new }
    {
        let number = self.number;
        let written = match event {
            Event::More => return 0,
            Event::Frame(place) => put_frame(number, view::view(chunk, hold, place), out),
            Event::Overlong => put_long(number, out),
        };
        self.number = number.wrapping_add(1);
        written
    }
}

// The lines that a call put at the front of out; none of what was refused.
pub fn text_of<'a>(reply: Result<usize, WireError>, out: &'a [u8]) -> &'a [u8]
    ensures bytes { result.now ≡ front_of (told reply) out.now }
    ensures place { result.ref_ptr ≡ out.entry.ref_ptr }
{
    match reply {
        Ok(n) if n <= out.len() => &out[..n],
        _ => &out[..0],
    }
}

// The room for a piece's lines.
fn room_for(len: usize) -> usize
    ensures { result ≡ room_for len }
{
    len.saturating_mul(128)
}

// The line of a frame: it is opened, and nothing of it is copied.
fn put_frame(number: u64, wire: &[u8], out: &mut [u8]) -> usize
    requires { 128 ≤ length out.old }
    ensures { Wrote (line_to number (yes (frame wire.now))) out.old result out.new }
{
    report::frame_line(number, wire.len(), RawFrame::open(wire), out).unwrap()
}

fn put_long(number: u64, out: &mut [u8]) -> usize
    requires { 128 ≤ length out.old }
    ensures { Wrote (long_text number) out.old result out.new }
{
    report::long_line(number, out).unwrap()
}
