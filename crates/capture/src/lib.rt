// A capture on standard input: read to its end, and document 01's line for each event and the line at the end printed.
// The work on a piece is `session`'s; the calls are those of a run of session: specs/Program, whose theorems say what is printed.
#![tactic(auto)]

ghost use Rattle.std.specs.Prelude.{◌≡◌};
ghost use Rattle.capture.specs.Capture.{Between};

use error::WireError;
use program::{Came, Steady};
use session::Session;

// The longest piece that is read at once.
const PIECE: usize = 8192;

// Where a read or a write fails, that is told and there is no line at the end: the lines are not the whole capture's.
// No contract can speak of standard input and output, and nothing is lent or answered: it is proved safe, and that it ends.
pub fn print_all(rt: &HostRuntime)
    ensures { result ≡ tt }
{
    let mut capture = Capture {
        session: Session::new(),
        hold: [0; 2048],
        lines: [0; 1048576],
    };
    if read_all(rt, &mut capture) {
        let splitter = capture.session.splitter;
        let reply = report::end_line(splitter.count, splitter.skipping, &mut capture.lines);
        print(rt, reply, &capture.lines);
    }
}

// Reads all of it. The session behind the last piece is one that calls of `piece` lead to, each with room for its lines.
fn read_all(rt: &HostRuntime, capture: &mut Capture) -> bool
    requires { Between capture.old.session capture.old.hold }
    ensures { Between capture.new.session capture.new.hold }
{
    program::read_steady(rt, b"frames", capture)
}

// The session, its hold buffer, and room for the lines of a piece. The session is one that calls of `piece` lead to, each with room
// for its lines.
#[derive(Drop)]
struct Capture {
    session: Session,
    hold: [u8; 2048],
    lines: [u8; 1048576],
    ghost between: { ∥ Between session hold ∥₁ },
}

// The lines of each piece are printed.
impl Steady<PIECE> for Capture {
    ghost use Rattle.std.proofs.Common.{ltb→lt};

    ghost steady = { λ c. ∥ Between c.session c.hold ∥₁ };

    ghost stands = { λ c. Between c.session c.hold };

    fn take(&mut self, rt: &HostRuntime, room: &[u8; PIECE], came: Came<PIECE>) -> bool
        ensures steady { ∥ Between self.new.session self.new.hold ∥₁ }
        ensures further { Between self.old.session self.old.hold → Between self.new.session self.new.hold }
    {
        let piece = &room[..came.len];
        let reply = self.session.piece(&mut self.hold, piece, &mut self.lines);
        print(rt, reply, &self.lines)
    }

    ghost always = { λ c. c.between };

    ghost small = { ltb→lt _ _ tt };
}

fn print(rt: &HostRuntime, reply: Result<usize, WireError>, lines: &[u8]) -> bool {
    program::write(rt, b"frames", session::text_of(reply, lines))
}
