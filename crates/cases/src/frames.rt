// Frames and the splitter: opening, encoding, copying a payload, and what a splitter makes of a stream in chunks.
// The case's numbers are the lent buffer's length, DEST, SRC and TYPE, H, and the sizes of the chunks offered in turn.
use crate::case::{Case, low_byte, low_half};
use crate::operation::FrameCall;
use crate::say::{Line, Refusal, ask, each, end, filled, read};

pub(crate) fn answer(
    call: FrameCall,
    case: Case,
    data: &[u8],
    line: &mut Line,
) -> Result<(), Refusal> {
    match call {
        FrameCall::Open => open(data, line)?,
        FrameCall::Encode => encode(case, data, line),
        FrameCall::Split => split(case, data, line)?,
        FrameCall::State => state(case, data, line)?,
        FrameCall::CopyPayload => copy_payload(case, data, line),
        FrameCall::CountedState => counted_state(case, data, line)?,
    }
    Ok(())
}

fn open(wire: &[u8], line: &mut Line) -> Result<(), Refusal> {
    let header = read([0; 4], |header, values| {
        abi_frame::mvd_open(wire, header, values)
    })?;
    line.put("0");
    each(line, &header, |n| n);
    end(line);
    Ok(())
}

fn copy_payload(case: Case, wire: &[u8], line: &mut Line) {
    let mut room = [0xA5; 1024];
    let buf = &mut room[..1024.min(case.a as usize)];
    let reply = read(0, |len, values| {
        abi_frame::mvd_copy_payload(wire, buf, len, values)
    });
    filled(line, reply, buf);
}

fn encode(case: Case, payload: &[u8], line: &mut Line) {
    let [_, _, _, _, _, dest, src, type_id] = case.a.to_be_bytes();
    let mut room = [0xA5; 1024];
    let wire = &mut room[..1024.min(case.b as usize)];
    let reply = read(0, |len, values| {
        abi_frame::mvd_encode(dest, src, type_id, payload, wire, len, values)
    });
    filled(line, reply, wire);
}

// A stream to a fresh splitter, in chunks of four sizes in turn: 64 each where all are 0.
fn split(case: Case, stream: &[u8], line: &mut Line) -> Result<(), Refusal> {
    let sizes = if case.b == 0 {
        [64; 4]
    } else {
        [
            low_half(case.b >> 48),
            low_half(case.b >> 32),
            low_half(case.b >> 16),
            low_half(case.b),
        ]
    };
    let source = Source {
        words: [0; 7],
        room: case.a as usize,
        sizes,
        stream,
    };
    source.show(line)
}

// A chunk, at once, to a state that the case gives, which took what it holds and no more.
fn state(case: Case, chunk: &[u8], line: &mut Line) -> Result<(), Refusal> {
    let held = case.a;
    given(case, [held, 0, 0, 0, held], chunk, line)
}

// A chunk, at once, to a state whose counts stand before it, the low byte first.
fn counted_state(case: Case, data: &[u8], line: &mut Line) -> Result<(), Refusal> {
    let mut counts = [0; 5];
    for (count, word) in counts.iter_mut().zip(data.chunks_exact(8)) {
        *count = word
            .iter()
            .rev()
            .fold(0, |n, &byte| n << 8 | u64::from(byte));
    }
    given(case, counts, data.get(40..).unwrap_or(&[]), line)
}

// The first number is the count; the mark is the second number's low byte, and H is the rest of it.
fn given(case: Case, counts: [u64; 5], chunk: &[u8], line: &mut Line) -> Result<(), Refusal> {
    let [taken, dropped, framed, lost, held] = counts;
    let mark = u64::from(low_byte(case.b));
    let source = Source {
        words: [case.a, mark, taken, dropped, framed, lost, held],
        room: (case.b >> 8) as usize,
        sizes: [u16::MAX; 4],
        stream: chunk,
    };
    source.show(line)
}

// A splitter's state with a hold buffer's length, and the stream that it is offered.
#[derive(Clone, Copy)]
struct Source<'a> {
    words: [u64; 7],
    room: usize,
    sizes: [u16; 4],
    stream: &'a [u8],
}

// What a call answers of the stream; a frame by its length, as the call tells it, and its bytes.
#[derive(Clone, Copy)]
enum Event<'a> {
    More,
    Frame(u64, &'a [u8]),
    Overlong,
}

impl Source<'_> {
    // The stream twice, each time from the start: first the frames' lengths, -1 for one above H, and the state at the end;
    // then their bytes, and those held.
    fn show(self, line: &mut Line) -> Result<(), Refusal> {
        let mut room = [0xA5; 1024];
        let hold = &mut room[..1024.min(self.room)];
        line.put("0");
        let end = self.offer(hold, |event| match event {
            Event::More => {}
            Event::Frame(len, _) => line.put(format_args!(" {len}")),
            Event::Overlong => line.put(" -1"),
        })?;
        each(line, &end, |n| n);
        let mut room = [0xA5; 1024];
        let hold = &mut room[..1024.min(self.room)];
        line.put(" :");
        let end = self.offer(hold, |event| {
            if let Event::Frame(_, bytes) = event {
                line.push_hex(bytes);
            }
        })?;
        line.push_hex(hold.get(..end[0] as usize).unwrap_or(&[]));
        line.put("\n");
        Ok(())
    }

    // Chunks of the four sizes in turn, each until all of it is taken, one at least; `tell` is told each event. The state at the end.
    // A proved loop has to end: no stream uses up the turns.
    fn offer<F: FnMut(Event<'_>)>(self, hold: &mut [u8], mut tell: F) -> Result<[u64; 7], Refusal>
        requires { F.IsAlwaysCallable tell }
    {
        let mut words = self.words;
        let mut at = 0usize;
        let mut end = 0usize;
        let mut sizes = self.sizes;
        for _ in 0..u64::MAX {
            if end <= at {
                end = self
                    .stream
                    .len()
                    .min(end.saturating_add(usize::from(sizes[0])));
                sizes.rotate_left(1);
            }
            let chunk = self.stream.get(at..end).unwrap_or(&[]);
            let mut fed = [0; 5];
            ask(|values| abi_splitter::mvd_feed(&mut words, hold, chunk, &mut fed, values))?;
            tell(event_of(&fed, hold, chunk));
            at = at.saturating_add(fed[1] as usize);
            if self.stream.len() <= at {
                break;
            }
        }
        Ok(words)
    }
}

fn event_of<'a>(fed: &[u64; 5], hold: &'a [u8], chunk: &'a [u8]) -> Event<'a> {
    let [kind, _, in_hold, start, len] = *fed;
    let start = start as usize;
    let end = start.saturating_add(len as usize);
    let bytes = if in_hold == 1 { hold } else { chunk };
    match kind {
        1 => Event::Frame(len, bytes.get(start..end).unwrap_or(&[])),
        2 => Event::Overlong,
        _ => Event::More,
    }
}
