// E9 for C: the record's numbers in two lent arrays, each stored as it is read.
// What it tells, and every lent place, is the rule of `TrackingStatus::decode`; specs/Numbers says what stands where.
#![tactic(auto)]

ghost use Rattle.std.specs.Prelude.{◌≡◌, [], ◌∷◌, ◌+◌, ◌<◌};
ghost use Rattle.std.proofs.lemmas.List.Edits.{sets};
ghost use Rattle.error.specs.Refusal.{on_yes};
ghost use Rattle.layout.specs.Layout.{answered, source_of, fields_of};
ghost use Rattle.tracking.specs.Table.{tracking_of};
ghost use Rattle.abi.specs.Answer.{Passed};
ghost use Rattle.abi_tracking.specs.Numbers.{tracking_counts, tracking_whole, tracking_numbers};

use abi::tell;
use error::WireError;
use integer::{byte_at, int24_at, uint16_at, uint24_at};

// Not by way of `TrackingStatus::decode`: all of its numbers would be read before the first is stored, more than there are registers.
pub fn mvd_tracking_status(
    payload: &[u8],
    counts: &mut [u64; 16],
    whole: &mut [i32; 4],
    values: &mut [u64; 3],
) -> u64
    ensures { Passed (on_yes (λ _. tracking_numbers (tracking_of (source_of 82 payload.now))) (answered 0xE9 82 payload.now))
        (counts.old, whole.old) values.old result (counts.new, whole.new) values.new }
{
    let got = payload.len();
    if got < 82 {
        return tell(WireError::payload_too_short(0xE9, 82, got), values);
    }
    let d = &payload[..82];
    *whole = tracking_whole(d);
    let was = *counts;
    put_counts(d, was, counts);
    0
}

#[tactic(auto, using(layout::proofs::Held::held), unfolding(tracking::specs::Table::tracking_of))]
fn tracking_whole(d: &[u8]) -> [i32; 4]
    ensures { result ≡ tracking_whole (tracking_of (fields_of d.now)) }
{
    [
        int24_at(d, 67),
        int24_at(d, 70),
        int24_at(d, 73),
        int24_at(d, 76),
    ]
}

// `was` is what counts holds: that there are sixteen is told of an array by value, and not of a lent one. It is not read, so no code comes of it.
fn put_counts(d: &[u8], was: [u64; 16], counts: &mut [u64; 16])
    requires { was ≡ counts.old }
    ensures { counts.new ≡ tracking_counts (tracking_of (fields_of d.now)) }
{
    put(
        counts,
        0,
        byte_at(d, 1) as u64,
        byte_at(d, 2) as u64,
        uint24_at(d, 22) as u64,
        uint24_at(d, 25) as u64,
    );
    put(
        counts,
        4,
        uint24_at(d, 28) as u64,
        uint24_at(d, 32) as u64,
        uint24_at(d, 35) as u64,
        uint16_at(d, 38) as u64,
    );
    put(
        counts,
        8,
        byte_at(d, 47) as u64,
        byte_at(d, 48) as u64,
        byte_at(d, 51) as u64,
        byte_at(d, 54) as u64,
    );
    put(
        counts,
        12,
        uint16_at(d, 56) as u64,
        byte_at(d, 59) as u64,
        uint16_at(d, 62) as u64,
        uint16_at(d, 80) as u64,
    );
}

// Four counts, from a place on.
fn put(counts: &mut [u64; 16], at: usize, m: u64, n: u64, o: u64, p: u64)
    requires { at + 3 < 16 }
    ensures { counts.new ≡ sets counts.old at (m ∷ n ∷ o ∷ p ∷ []) }
{
    counts[at] = m;
    counts[at + 1] = n;
    counts[at + 2] = o;
    counts[at + 3] = p;
}
