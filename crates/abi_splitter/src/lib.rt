// The splitter for C: its state lies in seven lent words, all 0 at the start, and `feed` answers five words.
// What the call tells, and every lent place, is the rule of `FrameSplitter::feed`; a mark that is neither 0 nor 1 is a bad state.
#![tactic(auto)]

ghost use Rattle.std.specs.Prelude.{◌≡◌};
ghost use Rattle.splitter.specs.Feed.{answer_of};
ghost use Rattle.abi.specs.Answer.{Passed};
ghost use Rattle.abi_splitter.specs.Fed.{state_of, words_of, feed_from, fed_of, left_by};

use abi::tell;
use error::WireError;
use splitter::{Counts, Event, Fed, FrameSplitter};

#[tactic(auto, unfolding(crate::specs::Fed::feed_from))]
pub fn mvd_feed(
    splitter: &mut [u64; 7],
    hold: &mut [u8],
    chunk: &[u8],
    fed: &mut [u64; 5],
    values: &mut [u64; 3],
) -> u64
    ensures reply { Passed (left_by (feed_from splitter.old hold.old chunk.now))
        (splitter.old, fed.old) values.old
        result (splitter.new, fed.new) values.new }
    ensures bytes { hold.new ≡ (feed_from splitter.old hold.old chunk.now).hold }
{
    // A test with a name, so that another bound is refused by the promise and not by the name of a goal.
    let is_bad = 1 < splitter[1];
    if is_bad {
        return tell(WireError::BadState, values);
    }
    let mut state = state_of(splitter);
    match state.feed(hold, chunk) {
        Ok(answer) => {
            *splitter = words_of(state);
            *fed = fed_of(answer);
            0
        }
        Err(e) => tell(e, values),
    }
}

// The seven words as a state.
fn state_of(words: &[u64; 7]) -> FrameSplitter
    ensures { result ≡ state_of words.now }
{
    let [count, mark, taken, dropped, framed, lost, held] = *words;
    FrameSplitter {
        count: count as usize,
        skipping: mark == 1,
        counts: Counts {
            taken,
            dropped,
            framed,
            lost,
            held,
        },
    }
}

// A state as the seven words.
fn words_of(s: FrameSplitter) -> [u64; 7]
    ensures { result ≡ words_of s }
{
    let Counts {
        taken,
        dropped,
        framed,
        lost,
        held,
    } = s.counts;
    let mark = u64::from(s.skipping);
    [s.count as u64, mark, taken, dropped, framed, lost, held]
}

// The event and what was taken as the five words.
#[tactic(auto, unfolding(crate::specs::Fed::fed_of))]
fn fed_of(fed: Fed) -> [u64; 5]
    ensures { result ≡ fed_of fed.taken (answer_of fed.event) }
{
    let taken = fed.taken as u64;
    match fed.event {
        Event::More => [0, taken, 0, 0, 0],
        Event::Frame(p) => [1, taken, u64::from(p.in_hold), p.start as u64, p.len as u64],
        Event::Overlong => [2, taken, 0, 0, 0],
    }
}
