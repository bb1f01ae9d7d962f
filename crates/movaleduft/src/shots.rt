// Shots for C: which failed, and the bay log's record of one.
// Each call is the library's of that name, and promises what that one does.

ghost use Rattle.std.specs.Prelude.{◌≡◌};
ghost use Rattle.abi.specs.Answer.{Passed, besides, flag_of};
ghost use Rattle.bay_log.specs.Log.{log_rule};
ghost use Rattle.error.specs.Refusal.{and_then};
ghost use Rattle.failure.specs.League.{rule_numbered};
ghost use Rattle.flight.specs.Decoding.{decode_rule};
ghost use Rattle.flight.specs.Failure.{flight_failed, flight_v1_failed, model_failure, no_read};
ghost use Rattle.flight.specs.FlightResultFields.{flight_result};
ghost use Rattle.flight.specs.FlightResultV1Fields.{flight_result_v1};

use numbers::Message;

// `FlightResult::is_failed` of a payload's record, by the rule of a number.
#[unsafe(no_mangle)]
pub extern "C" fn mvd_is_failed(
    rule: usize,
    payload: &[u8],
    failed: &mut u8,
    values: &mut [u64; 3],
) -> u64
    ensures { Passed (and_then (rule_numbered rule)
        (λ by. besides (λ r. flag_of (flight_failed by r)) (decode_rule Message.FlightResult flight_result payload.now)))
        failed.old values.old result failed.new values.new }
{
    abi_failure::mvd_is_failed(rule, payload, failed, values)
}

// `FlightResultV1::is_failed` of a payload's record, by the rule of a number.
#[unsafe(no_mangle)]
pub extern "C" fn mvd_is_failed_v1(
    rule: usize,
    payload: &[u8],
    failed: &mut u8,
    values: &mut [u64; 3],
) -> u64
    ensures { Passed (and_then (rule_numbered rule)
        (λ by. besides (λ r. flag_of (flight_v1_failed by r)) (decode_rule Message.FlightResultV1 flight_result_v1 payload.now)))
        failed.old values.old result failed.new values.new }
{
    abi_failure::mvd_is_failed_v1(rule, payload, failed, values)
}

// `is_model_failure` of a payload's record: 1 for yes.
#[unsafe(no_mangle)]
pub extern "C" fn mvd_is_model_failure(
    payload: &[u8],
    failed: &mut u8,
    values: &mut [u64; 3],
) -> u64
    ensures { Passed (besides (λ r. flag_of (model_failure r)) (decode_rule Message.FlightResult flight_result payload.now))
        failed.old values.old result failed.new values.new }
{
    abi_failure::mvd_is_model_failure(payload, failed, values)
}

// `is_no_read` of a payload's record: 1 for yes.
#[unsafe(no_mangle)]
pub extern "C" fn mvd_is_no_read(payload: &[u8], unread: &mut u8, values: &mut [u64; 3]) -> u64
    ensures { Passed (besides (λ r. flag_of (no_read r)) (decode_rule Message.FlightResultV1 flight_result_v1 payload.now))
        unread.old values.old result unread.new values.new }
{
    abi_failure::mvd_is_no_read(payload, unread, values)
}

#[unsafe(no_mangle)]
pub extern "C" fn mvd_bay_log(
    event: u32,
    payload: &[u8],
    buf: &mut [u8],
    values: &mut [u64; 3],
) -> u64
    ensures passed { Passed (log_rule event payload.now buf.old).0 tt values.old result tt values.new }
    ensures buf_after { buf.new ≡ (log_rule event payload.now buf.old).1 }
{
    abi_bay_log::mvd_bay_log(event, payload, buf, values)
}
