// Test: replays the fixed list of the Rust's answers on standard input, a case a line (docs/CASES.md), through the exported library.
// The gate holds what it prints to `stdout` beside src/. A line that is no case, or asks for more than there is room for, is told by its number, and ends the run.
#![tactic(auto)]

ghost use Rattle.std.specs.Prelude.{⊤};

mod case;
mod fields;
mod frames;
mod messages;
mod operation;
mod say;
mod text;

use crate::case::{Case, Fault};
use crate::operation::Operation;
use crate::say::{Line, Refusal};
use crate::text::Text;
use program::{Came, Steady};

fn main(rt: HostRuntime) {
    if program::alone(
        &rt,
        program::word_count(&rt),
        b"usage: ./run cases < LIST\n",
    ) {
        let mut replay = Replay {
            number: 1,
            hex: Text::new(),
            line: Line::new(),
        };
        if program::read_steady(&rt, b"cases", &mut replay) {
            replay.end(&rt);
        }
    }
}

// The longest piece that is read at once.
const PIECE: usize = 65536;

// The line that is read and its number, and the line of its answer. The longest is a case with 4,096 bytes.
#[derive(Drop)]
struct Replay {
    number: u64,
    hex: Text<8226>,
    line: Line,
}

impl Steady<PIECE> for Replay {
    ghost use Rattle.std.proofs.Common.{ltb→lt};

    ghost steady = { λ _. ⊤ };

    fn take(&mut self, rt: &HostRuntime, room: &[u8; PIECE], came: Came<PIECE>) -> bool
        ensures { ⊤ }
    {
        let piece = &room[..came.len];
        piece.iter().all(|&byte| self.next(rt, byte))
    }

    ghost always = { λ _. tt };

    ghost small = { ltb→lt _ _ tt };
}

impl Replay {
    // One byte more: a line feed ends the line, any other byte is put behind it. Answers whether the run goes on.
    fn next(&mut self, rt: &HostRuntime, byte: u8) -> bool {
        if byte == b'\n' {
            return self.answered(rt);
        }
        if self.hex.is_full() {
            return self.wrong(rt, Fault::Long);
        }
        self.hex.push(byte);
        true
    }

    // The line's answer is printed, or what is wrong with the line is told.
    fn answered(&mut self, rt: &HostRuntime) -> bool {
        let hex = self.hex.bytes();
        match Case::read(hex) {
            Err(fault) => self.wrong(rt, fault),
            Ok(case) => {
                self.line.clear();
                answer(case, hex, &mut self.line);
                self.number = self.number.wrapping_add(1);
                self.hex.clear();
                program::write(rt, b"cases", self.line.bytes())
            }
        }
    }

    // At the end of the input nothing is left of a line.
    fn end(&self, rt: &HostRuntime) {
        if !self.hex.bytes().is_empty() {
            self.wrong(rt, Fault::Cut);
        }
    }

    // A fault is told by the line's number, and ends the run.
    fn wrong(&self, rt: &HostRuntime, fault: Fault) -> bool {
        program::wrong(rt, b"cases", self.number, fault.text());
        false
    }
}

// The operation and the two numbers are the case's head; its bytes are lent to what writes, and read by all else.
fn answer(case: Case, hex: &[u8], line: &mut Line) {
    let mut room = [0; 4096];
    let len = case::bytes(hex, &mut room);
    let bytes = &mut room[..4096.min(len)];
    let reply = match case.operation {
        Operation::Read(reader) => fields::reading(reader, case, bytes, line),
        Operation::Write(writer) => {
            fields::writing(writer, case, bytes, line);
            Ok(())
        }
        Operation::Frames(call) => frames::answer(call, case, bytes, line),
        Operation::Records(call) => messages::record(call, case.a as usize, bytes, line),
        Operation::Messages(call) => messages::answer(call, case, bytes, line),
    };
    if let Err(refusal) = reply {
        refused(refusal, line);
    }
}

// A refusal stands alone on its line.
fn refused(refusal: Refusal, line: &mut Line) {
    line.clear();
    line.put(format_args!("{refusal} :\n"));
}
