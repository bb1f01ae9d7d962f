// The five counts: whether they balance, and what a call adds to them.
// Neither wraps, on any numbers: each count is taken off what is left of taken, and a call that would pass 64 bits is refused before.
ghost use Rattle.std.specs.Prelude.{◌≡◌, ◌+◌, ◌-◌, ◌≤◌};
ghost use Rattle.splitter.specs.Feed.{balances, counted, length_with};
ghost use Rattle.splitter.specs.Private.{Room};

use crate::{Counts, FrameSplitter};

// Whether taken is the sum of the other four, and held is the splitter's count. Test by test: with `checked_sub` and `?` a call of
// `feed` took two instructions more, and with the last two tests in one the search for F0 lay across a boundary of its code, which took
// noise a third longer.
pub(crate) fn balances(counts: Counts, count: usize) -> bool
    ensures { result ≡ balances counts count }
{
    let Counts {
        taken,
        dropped,
        framed,
        lost,
        held,
    } = counts;
    if taken < dropped {
        return false;
    }
    let rest = taken - dropped;
    if rest < framed {
        return false;
    }
    let rest = rest - framed;
    if rest < lost {
        return false;
    }
    if rest - lost != held {
        return false;
    }
    held == count as u64
}

// The counts after e bytes of a chunk, i of them outside frames, and what is handed over now, lost now, and held.
pub(crate) fn counted(
    s: FrameSplitter,
    i: usize,
    e: usize,
    framed: u64,
    lost: u64,
    held: u64,
) -> Counts
    requires room { Room s e }
    requires i_le_e { (i ≤ e) × (framed + lost ≤ length_with s (e - i)) }
    ensures { result ≡ counted s i e framed lost held }
{
    let counts = s.counts;
    Counts {
        taken: counts.taken + e as u64,
        dropped: counts.dropped + i as u64,
        framed: counts.framed + framed,
        lost: counts.lost + lost,
        held,
    }
}
