// Prints how much of a capture on standard input is noise: the splitter's five counts at its end, each on its line (request 6).
// The work on a piece is `line_noise`'s; the calls are those of a run of line_noise: specs/Program, whose theorems say what is printed.
#![tactic(auto)]

ghost use Rattle.noise.specs.Line.{Between};

use error::WireError;
use program::{Came, Steady};
use report::Count;
use splitter::{Counts, FrameSplitter};

// The longest piece that is read at once.
const PIECE: usize = 8192;

fn main(rt: HostRuntime) {
    if program::alone(
        &rt,
        program::word_count(&rt),
        b"usage: ./run noise < CAPTURE\n",
    ) {
        count_all(&rt);
    }
}

// Where a read fails, or a piece is refused, that is told and no count is printed: they are not the whole capture's.
fn count_all(rt: &HostRuntime) {
    let mut line = Line {
        splitter: FrameSplitter::new(),
        hold: [0; 2048],
    };
    if read_all(rt, &mut line) {
        print_counts(rt, line.splitter.counts);
    }
}

// Reads all of it. The splitter behind the last piece is one that calls of `take_all` lead to.
fn read_all(rt: &HostRuntime, line: &mut Line) -> bool
    requires { Between line.old.splitter line.old.hold }
    ensures { Between line.new.splitter line.new.hold }
{
    program::read_steady(rt, b"noise", line)
}

// The splitter, and its hold buffer. The splitter is one that calls of `take_all` lead to.
#[derive(Drop)]
struct Line {
    splitter: FrameSplitter,
    hold: [u8; 2048],
    ghost between: { ∥ Between splitter hold ∥₁ },
}

// Each piece is counted.
impl Steady<PIECE> for Line {
    ghost use Rattle.std.proofs.Common.{ltb→lt};

    ghost steady = { λ l. ∥ Between l.splitter l.hold ∥₁ };

    ghost stands = { λ l. Between l.splitter l.hold };

    fn take(&mut self, rt: &HostRuntime, room: &[u8; PIECE], came: Came<PIECE>) -> bool
        ensures steady { ∥ Between self.new.splitter self.new.hold ∥₁ }
        ensures further { Between self.old.splitter self.old.hold → Between self.new.splitter self.new.hold }
    {
        let piece = &room[..came.len];
        let reply = line_noise::take_all(&mut self.splitter, &mut self.hold, piece);
        is_taken(rt, reply)
    }

    ghost always = { λ l. l.between };

    ghost small = { ltb→lt _ _ tt };
}

// Whether a piece was taken. A refusal is told: more bytes came than can be counted, for the state is one that calls lead to.
fn is_taken(rt: &HostRuntime, reply: Result<(), WireError>) -> bool {
    if reply.is_err() {
        program::tell(rt, b"noise: more bytes came than 64 bits can count\n");
    }
    reply.is_ok()
}

// The five lines; none after one that cannot be written.
fn print_counts(rt: &HostRuntime, counts: Counts) -> bool {
    print(rt, Count::Taken, counts.taken)
        && print(rt, Count::Dropped, counts.dropped)
        && print(rt, Count::Framed, counts.framed)
        && print(rt, Count::Lost, counts.lost)
        && print(rt, Count::Held, counts.held)
}

fn print(rt: &HostRuntime, which: Count, n: u64) -> bool {
    let mut line = [0u8; 128];
    let reply = report::count_line(which, n, &mut line);
    program::write(rt, b"noise", session::text_of(reply, &line))
}
