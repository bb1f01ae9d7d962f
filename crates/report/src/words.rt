// The words that lines share: what opening a frame said, and a count's name.
// `OK` with a frame's fields, or `NO` with a refusal's number and values, a space before each word; a line is written from its end.
ghost use Rattle.std.specs.Prelude.{◌≡◌, ◌+◌, ◌≤◌, ◌++◌, length};
ghost use Rattle.error.specs.Refusal.{yes, refused};
ghost use Rattle.error.specs.Result.{told};
ghost use Rattle.report.specs.Line.{spaced, result_words, name_of};

use crate::Count;
use crate::line::Line;
use error::WireError;
use frame::RawFrame;

// What opening a frame said.
pub(crate) fn said(line: &mut Line, opened: Result<RawFrame, WireError>)
    requires { length line.old + 84 ≤ 128 }
    ensures bytes { line.new ≡ spaced (result_words (told opened)) ++ line.old }
    ensures few { length line.new ≤ length line.old + 70 }
{
    match opened {
        Ok(frame) => fields(line, frame),
        Err(e) => refusal(line, e),
    }
}

// DEST, SRC, TYPE and the payload's length.
fn fields(line: &mut Line, frame: RawFrame)
    requires { length line.old + 33 ≤ 128 }
    ensures bytes { line.new ≡ spaced (result_words (yes frame)) ++ line.old }
    ensures few { length line.new ≤ length line.old + 33 }
{
    line.number(frame.len as u64);
    line.byte(frame.type_id);
    line.byte(frame.src.as_byte());
    line.byte(frame.dest.as_byte());
    line.text(b" OK");
}

// The refusal's number, and its values in order.
fn refusal(line: &mut Line, e: WireError)
    requires { length line.old + 84 ≤ 128 }
    ensures bytes { line.new ≡ spaced (result_words (refused e)) ++ line.old }
    ensures few { length line.new ≤ length line.old + 70 }
{
    for i in (0..e.count()).rev() {
        line.number(e.value(i) as u64);
    }
    line.number(e.number() as u64);
    line.text(b" NO");
}

// A count's name.
pub(crate) fn name(which: Count) -> &'static [u8]
    ensures { result.now ≡ name_of which }
{
    match which {
        Count::Taken => b"taken",
        Count::Dropped => b"dropped",
        Count::Framed => b"framed",
        Count::Lost => b"lost",
        Count::Held => b"held",
    }
}
