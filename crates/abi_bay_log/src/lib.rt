// The bay log's record, for C: the call is `bay_log::write_record`.
// What it tells, and every lent place, is that function's rule.
#![tactic(auto)]

ghost use Rattle.std.specs.Prelude.{◌≡◌};
ghost use Rattle.bay_log.specs.Log.{log_rule};
ghost use Rattle.abi.specs.Answer.{Passed};

use abi::unit;

pub fn mvd_bay_log(event: u32, payload: &[u8], buf: &mut [u8], values: &mut [u64; 3]) -> u64
    ensures passed { Passed (log_rule event payload.now buf.old).0 tt values.old result tt values.new }
    ensures buf_after { buf.new ≡ (log_rule event payload.now buf.old).1 }
{
    unit(bay_log::write_record(buf, event, payload), values)
}
