// The text line of each event, as bytes at the front of a lent buffer: document 01's lines, whole.
// A line that does not fit is refused with 8, and nothing is written.
#![tactic(auto)]

mod line;
mod words;

ghost use Rattle.error.specs.Result.{told};
ghost use Rattle.report.specs.Line.{frame_text, long_text, end_text, count_text, Lined};

use crate::line::Line;
use crate::words::{name, said};
use error::WireError;
use frame::RawFrame;

// A frame's line: `N LEN OK DEST SRC TYPE P`, or `N LEN NO` with the refusal's number and values. Each line is written from its last part on.
#[tactic(auto, unfolding(crate::specs::Line::frame_text))]
pub fn frame_line(
    number: u64,
    len: usize,
    opened: Result<RawFrame, WireError>,
    out: &mut [u8],
) -> Result<usize, WireError>
    ensures { Lined (frame_text number len (told opened)) out.old (told result) out.new }
{
    let mut line = Line::new();
    said(&mut line, opened);
    line.number(len as u64);
    line.decimal(number);
    line.put(out)
}

// The line of a frame longer than the hold buffer: `N - LONG`.
#[tactic(auto, unfolding(crate::specs::Line::long_text))]
pub fn long_line(number: u64, out: &mut [u8]) -> Result<usize, WireError>
    ensures { Lined (long_text number) out.old (told result) out.new }
{
    let mut line = Line::new();
    line.text(b" - LONG");
    line.decimal(number);
    line.put(out)
}

// The line at the end: `end HELD MARK`.
#[tactic(auto, unfolding(crate::specs::Line::end_text))]
pub fn end_line(count: usize, skipping: bool, out: &mut [u8]) -> Result<usize, WireError>
    ensures { Lined (end_text count skipping) out.old (told result) out.new }
{
    let mut line = Line::new();
    line.number(u64::from(skipping));
    line.number(count as u64);
    line.text(b"end");
    line.put(out)
}

// One of the splitter's five counts.
#[derive(Clone, Copy)]
pub enum Count {
    Taken,
    Dropped,
    Framed,
    Lost,
    Held,
}

// The line of a count: its name and the number, as `taken N`.
#[tactic(auto, unfolding(crate::specs::Line::count_text))]
pub fn count_line(which: Count, n: u64, out: &mut [u8]) -> Result<usize, WireError>
    ensures { Lined (count_text which n) out.old (told result) out.new }
{
    let mut line = Line::new();
    line.number(n);
    line.text(name(which));
    line.put(out)
}
