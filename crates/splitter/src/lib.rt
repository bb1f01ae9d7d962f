// The splitter: cuts a byte stream that comes in chunks into frames F0 .. F1, one event a call, and counts what the line loses.
// However the stream is cut, the frames are the Rust's; those longer than the hold buffer are answered Overlong (crate stream).
#![tactic(auto)]

mod counting;

ghost use Rattle.std.specs.Prelude.{◌≡◌, false, not, ◌+◌, ◌-◌, ◌≤◌, length};
ghost use Rattle.std.specs.declared.result.Result.TheVariants.{Ok};
ghost use Rattle.splitter.specs.declared.Event.TheVariants.{More};
ghost use Rattle.splitter.specs.Feed.{new, is_bad, is_full, is_open, is_kept, start_in, laid, ends, going_on, feed_rule, given_by};
ghost use Rattle.splitter.specs.Private.{Room};

use crate::counting::{balances, counted};
use blocks::{block, put_block};
use error::WireError;
use marks::{END, START};
use search::{find, find_far};

// The state between two calls: how many bytes of an open frame the hold buffer has, or that
// the open frame is longer than that buffer and is skipped up to its end; and the counts since the first call.
// Count and mark stand apart, so that a bad state can be said and refused (`is_bad`); C has each as a word.
#[derive(Clone, Copy, Default)]
pub struct FrameSplitter {
    pub count: usize,
    pub skipping: bool,
    pub counts: Counts,
}

// Bytes since the first call: all that were taken; dropped outside frames; handed over in frames; lost in frames longer
// than the hold buffer, one that is being skipped too; and held.
#[derive(Clone, Copy, Default)]
pub struct Counts {
    pub taken: u64,
    pub dropped: u64,
    pub framed: u64,
    pub lost: u64,
    pub held: u64,
}

// Where a frame lies: len bytes from start on, in the hold buffer or in the chunk. C has the three as they stand here.
#[derive(Clone, Copy)]
pub struct Place {
    pub in_hold: bool,
    pub start: usize,
    pub len: usize,
}

#[derive(Clone, Copy)]
pub enum Event {
    More,
    Frame(Place),
    Overlong,
}

// What a call that is not refused answers, and how many bytes of the chunk it took.
#[derive(Clone, Copy)]
pub struct Fed {
    pub event: Event,
    pub taken: usize,
}

impl FrameSplitter {
    pub fn new() -> FrameSplitter
        ensures { result ≡ new }
    {
        FrameSplitter::default()
    }

    // One event of the stream; a refusal takes nothing and alters nothing. Hold buffer and chunk are lent for one call, by C too.
    pub fn feed(&mut self, hold: &mut [u8], chunk: &[u8]) -> Result<Fed, WireError>
        ensures { given_by result self.new hold.new ≡ feed_rule self.old hold.old chunk.now }
    {
        let room = hold.len();
        if self.is_bad(room) {
            return Err(WireError::BadState);
        }
        let n = chunk.len();
        if self.is_full(n) {
            return Err(WireError::CounterFull);
        }
        let from = self.start(chunk);
        let end = find_far(chunk, from, END);
        if end < n {
            return Ok(self.closes(hold, chunk, from, end + 1));
        }
        Ok(self.stays(hold, chunk, from))
    }

    // Whether `feed` refuses this state, with a hold buffer of room bytes: no call gives it.
    pub fn is_bad(self, room: usize) -> bool
        ensures { result ≡ is_bad self room }
    {
        if room < self.count || !balances(self.counts, self.count) {
            return true;
        }
        self.skipping && self.count != 0
    }

    // Whether n more bytes would pass what can be counted.
    pub fn is_full(self, n: usize) -> bool
        ensures { result ≡ is_full self n }
    {
        u64::MAX - self.counts.taken < n as u64
    }

    // Where the bytes of the frame that is open, or opens here, start in the chunk.
    fn start(self, chunk: &[u8]) -> usize
        ensures { (result ≡ start_in self chunk.now) × (result ≤ length chunk.now) }
    {
        if self.is_open() {
            return 0;
        }
        find(chunk, 0, START)
    }

    // Whether a frame is open: some of its bytes are held, or were lost.
    fn is_open(self) -> bool
        ensures { result ≡ is_open self }
    {
        self.skipping || self.count != 0
    }

    // Whether the open frame with added more bytes is longer than the hold buffer, or has been.
    fn is_lost(self, room: usize, added: usize) -> bool
        requires { self.count ≤ room }
        ensures { result ≡ not (is_kept self room added) }
    {
        self.skipping || room - self.count < added
    }

    // The frame ends in the chunk, just before index to. (`feed` takes any state and refuses the bad ones, so the type has no
    // invariant: what its two tests leave is asked here, of `stays` and of what they call.)
    fn closes(&mut self, hold: &mut [u8], chunk: &[u8], from: usize, to: usize) -> Fed
        requires count_in_bounds { (self.old.count ≤ length hold.old) × Room self.old to }
        requires from_le_to { (from ≤ to) × (to ≤ length chunk.now) }
        ensures { given_by (Ok result) self.new hold.new ≡ ends self.old hold.old chunk.now from to }
    {
        let count = self.count;
        let len = to - from;
        let all = count + len;
        if self.is_lost(hold.len(), len) {
            let counts = counted(*self, from, to, 0, all as u64, 0);
            return self.ended(Event::Overlong, to, counts);
        }
        let counts = counted(*self, from, to, all as u64, 0, 0);
        if count == 0 {
            let place = Place {
                in_hold: false,
                start: from,
                len,
            };
            return self.ended(Event::Frame(place), to, counts);
        }
        lay(hold, count, &chunk[from..to]);
        let place = Place {
            in_hold: true,
            start: 0,
            len: all,
        };
        self.ended(Event::Frame(place), to, counts)
    }

    // After a frame's end the splitter is fresh, but for its counts.
    fn ended(&mut self, event: Event, taken: usize, counts: Counts) -> Fed
        ensures reply { result ≡ record { event = event; taken = taken } }
        ensures state { self.new ≡ record { count = 0; skipping = false; counts = counts } }
    {
        *self = FrameSplitter {
            counts,
            ..FrameSplitter::new()
        };
        Fed { event, taken }
    }

    // The frame, if any, does not end in the chunk.
    fn stays(&mut self, hold: &mut [u8], chunk: &[u8], from: usize) -> Fed
        requires count_in_bounds { (self.old.count ≤ length hold.old) × Room self.old (length chunk.now) }
        requires from_in_bounds { from ≤ length chunk.now }
        ensures { given_by (Ok result) self.new hold.new ≡ going_on self.old hold.old chunk.now from (length chunk.now) }
    {
        let count = self.count;
        let n = chunk.len();
        let added = n - from;
        let all = count + added;
        if self.is_lost(hold.len(), added) {
            return self.went_on(n, 0, true, counted(*self, from, n, 0, all as u64, 0));
        }
        lay(hold, count, &chunk[from..n]);
        self.went_on(n, all, false, counted(*self, from, n, 0, 0, all as u64))
    }

    // Before a frame's end the answer is More.
    fn went_on(&mut self, taken: usize, count: usize, skipping: bool, counts: Counts) -> Fed
        ensures reply { result ≡ record { event = More; taken = taken } }
        ensures state { self.new ≡ record { count = count; skipping = skipping; counts = counts } }
    {
        *self = FrameSplitter {
            count,
            skipping,
            counts,
        };
        Fed {
            event: Event::More,
            taken,
        }
    }
}

// Writes src over dst from index at on. A line that is read byte by byte brings one byte a call, and a serial port's buffer
// sixteen: these have no loop. The rest are stored one by one: `copy_from_slice` is a call of the C library's `memcpy` here,
// which took 3 to 6 % longer where nothing or little is held.
fn lay(dst: &mut [u8], at: usize, src: &[u8])
    requires { at + length src.now ≤ length dst.old }
    ensures { dst.new ≡ laid dst.old at src.now }
{
    if src.len() == 1 {
        dst[at] = src[0];
        return;
    }
    if src.len() == 16 {
        put_block(block(src), dst, at);
        return;
    }
    for (i, &b) in src.iter().enumerate() {
        dst[at + i] = b;
    }
}
