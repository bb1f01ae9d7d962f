// Refusals for C: how many values the refusal of a number has.
// Who prints or compares a refusal asks this call, and keeps no table of its own.
#![tactic(auto)]

ghost use Rattle.abi_error.specs.ValueCount.{ValueCount};

// By number; no refusal's number is 0.
const COUNTS: [usize; 14] = [0, 1, 1, 0, 2, 2, 1, 3, 2, 0, 1, 1, 1, 0];

pub fn mvd_value_count(refusal: u64) -> usize
    ensures { ValueCount refusal result }
{
    COUNTS.get(refusal as usize).copied().unwrap_or(0)
}
