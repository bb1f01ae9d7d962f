// How much of the line is noise: a piece of the stream in, the splitter's five counts on; what the splitter answers is not looked at.
// However the stream is cut into pieces, the counts are those of its bytes (proofs/Printed).
#![tactic(auto)]

ghost use Rattle.std.specs.Prelude.{◌≡◌, false, length};
ghost use Rattle.splitter.specs.Feed.{is_bad, is_full};
ghost use Rattle.line_noise.specs.Piece.{between, wholly, take_rule, outcome_of};

use error::WireError;
use splitter::FrameSplitter;

// All of a piece, or nothing of it: what is refused alters nothing.
pub fn take_all(
    splitter: &mut FrameSplitter,
    hold: &mut [u8],
    chunk: &[u8],
) -> Result<(), WireError>
    ensures { outcome_of result splitter.new hold.new ≡ take_rule (between splitter.old hold.old) chunk.now }
{
    if splitter.is_bad(hold.len()) {
        return Err(WireError::BadState);
    }
    if splitter.is_full(chunk.len()) {
        return Err(WireError::CounterFull);
    }
    feed_all(splitter, hold, chunk);
    Ok(())
}

// What a call leaves of the piece is offered again. Taken and what is left add up to the same number before each call, so none is refused.
// The lines of `session` come from a loop of the same form: one for both would take the state, what is done with an event and the rule of
// both as parameters, which is more than its three lines.
fn feed_all(splitter: &mut FrameSplitter, hold: &mut [u8], chunk: &[u8])
    requires { (is_bad splitter.old (length hold.old) ≡ false) × (is_full splitter.old (length chunk.now) ≡ false) }
    ensures { between splitter.new hold.new ≡
        wholly (length chunk.now) (between splitter.old hold.old) chunk.now }
{
    let mut rest = chunk;
    while !rest.is_empty() {
        let fed = splitter.feed(hold, rest).unwrap();
        rest = &rest[fed.taken..];
    }
}
