// What the programs share: their words, standard input in pieces, standard output, and telling what went wrong.
// A program has no exit status of its own: it writes to standard error only what went wrong, and what is told there is the program's status.
#![tactic(auto)]

ghost use Rattle.std.specs.Prelude.{◌≡◌, ◌^◌, ◌<◌, ◌≤◌, ⊤, true, [], leb, length};
ghost use Rattle.program.specs.Counts.{Moved};

#[cfg(test)]
mod tests;

use std::env::FillError;
use std::io::{Error, Read};
use std::rt::Env;

// How many words a program was started with, its own name among them.
pub fn word_count(rt: &HostRuntime) -> usize {
    let mut none = [0u8; 0];
    for i in 0..usize::MAX {
        if let Err(FillError::NotPresent) = rt.arg(i, &mut none) {
            return i;
        }
    }
    usize::MAX
}

// Whether a program that takes no words was started with none, its own name apart. Where there are some, its usage is told.
pub fn alone(rt: &HostRuntime, args: usize, usage: &[u8]) -> bool
    ensures { result ≡ leb args 1 }
{
    let alone = args <= 1;
    if !alone {
        tell(rt, usage);
    }
    alone
}

// What is done with the pieces of the input, one after the other. Here and below a plain yes or no is answered, for what failed has
// been told.
pub trait Sink<const N: usize> {
    // What is so between two pieces.
    ghost stands: { Self → Type 0 };

    // One piece. Answers whether the next one is to be read. What was so before a piece of at most N bytes is so behind it.
    fn take(&mut self, rt: &HostRuntime, piece: &[u8]) -> bool
        ensures { stands self.old → length piece.now ≤ N → stands self.new };
}

// Standard input, piece by piece, to its end, or to where a read fails or the sink wants no more. Answers whether that was the end.
// A proved loop has to end, and nothing says that the input does: no run reads so many pieces as are counted here.
pub fn read_all<const N: usize, S: Sink<N>>(rt: &HostRuntime, name: &[u8], sink: &mut S) -> bool
    ensures { S.stands sink.old → S.stands sink.new }
{
    // no such room lies in memory
    if N > isize::MAX as usize {
        return false;
    }
    let mut piece = [0u8; N];
    for _turn in 0..u64::MAX {
        match read(rt, name, &mut piece) {
            Some(0) => return true,
            Some(n) => {
                if !sink.take(rt, &piece[..n]) {
                    return false;
                }
            }
            None => return false,
        }
    }
    false
}

// How many bytes of a room for N a read brought.
#[derive(Clone, Copy)]
pub struct Came<const N: usize> {
    pub len: usize,
    ghost fits: { len ≤ N },
}

// A sink of whose every value something is so, as a ghost field of its type can say.
pub trait Steady<const N: usize> {
    // What is so of every value.
    ghost steady: { Self → Type 0 };

    // What is so between two pieces, of some values.
    ghost stands: { Self → Type 0 } = { λ _. ⊤ };

    // One piece: the first bytes of the room, as many as came. Answers whether the next one is to be read.
    fn take(&mut self, rt: &HostRuntime, room: &[u8; N], came: Came<N>) -> bool
        ensures steady { steady self.new }
        ensures further { stands self.old → stands self.new };

    // It is so of every value of the type.
    ghost always: { (s : Self) → steady s };

    // The room can lie in memory.
    ghost small: { N < 2 ^ 63 };
}

// As `read_all`, of a steady sink.
pub fn read_steady<const N: usize, S: Steady<N>>(
    rt: &HostRuntime,
    name: &[u8],
    sink: &mut S,
) -> bool
    ensures steady { S.steady sink.new }
    ensures further { S.stands sink.old → S.stands sink.new }
{
    let mut room = [0u8; N];
    for _ in 0..u64::MAX {
        match read(rt, name, &mut room) {
            Some(0) => return true,
            Some(len) => {
                if !sink.take(rt, &room, Came { len }) {
                    return false;
                }
            }
            None => return false,
        }
    }
    false
}

// One read of standard input, into a lent piece: how many bytes came, 0 at the end. A failure is told, and then there is no number.
pub fn read(rt: &HostRuntime, name: &[u8], piece: &mut [u8]) -> Option<usize>
    ensures { Moved (length piece.old) result }
{
    match rt.stdin().read(piece) {
        Ok(n) => Some(n),
        Err(reason) => {
            fail(rt, name, b": standard input cannot be read: ", reason);
            None
        }
    }
}

// All of a text to standard output, or the failure is told; an empty text cannot fail.
pub fn write(rt: &HostRuntime, name: &[u8], text: &[u8]) -> bool
    ensures { text.now ≡ [] → result ≡ true }
{
    if text.len() == 0 {
        return true;
    }
    match rt.stdout().write_all(text) {
        Ok(()) => true,
        Err(reason) => {
            fail(rt, name, b": standard output cannot be written: ", reason);
            false
        }
    }
}

// What went wrong on a line of a list, by the line's number.
pub fn wrong(rt: &HostRuntime, name: &[u8], number: u64, what: &[u8])
    ensures { result ≡ tt }
{
    tell(rt, name);
    tell(rt, b": line ");
    let _ = rt.eprint(number);
    tell(rt, b": ");
    tell(rt, what);
    tell(rt, b"\n");
}

// The program's name, what failed, and the system's reason.
fn fail(rt: &HostRuntime, name: &[u8], what: &[u8], reason: Error) {
    tell(rt, name);
    tell(rt, what);
    let _ = rt.eprintln(reason);
}

// A text to standard error.
pub fn tell(rt: &HostRuntime, text: &[u8])
    ensures { result ≡ tt }
{
    let _ = rt.stderr().write_all(text);
}
