// Whether a shot failed, for C: each call decodes a payload and asks its record, 1 for yes.
// A crate of their own: the decoders' own calls for C are in abi_flight.
#![tactic(auto)]

ghost use Rattle.std.specs.Prelude.{◌≡◌};
ghost use Rattle.error.specs.Refusal.{and_then};
ghost use Rattle.error.specs.Result.{told};
ghost use Rattle.failure.specs.League.{rule_numbered};
ghost use Rattle.flight.specs.Decoding.{decode_rule};
ghost use Rattle.flight.specs.Failure.{flight_failed, flight_v1_failed, model_failure, no_read};
ghost use Rattle.flight.specs.FlightResultFields.{flight_result};
ghost use Rattle.flight.specs.FlightResultV1Fields.{flight_result_v1};
ghost use Rattle.abi.specs.Answer.{flag_of, Passed, besides};

use abi::{flag, put};
use error::WireError;
use failure::LeagueRule;
use flight::{FlightResult, FlightResultV1};
use numbers::Message;

// `FlightResult::is_failed` of a payload's record, by the rule of a number.
pub fn mvd_is_failed(rule: usize, payload: &[u8], failed: &mut u8, values: &mut [u64; 3]) -> u64
    ensures { Passed (and_then (rule_numbered rule)
        (λ by. besides (λ r. flag_of (flight_failed by r)) (decode_rule Message.FlightResult flight_result payload.now)))
        failed.old values.old result failed.new values.new }
{
    put(
        LeagueRule::from_number(rule).and_then(|by| flight_failed(by, payload)),
        failed,
        values,
    )
}

// `FlightResultV1::is_failed` of a payload's record, by the rule of a number.
pub fn mvd_is_failed_v1(rule: usize, payload: &[u8], failed: &mut u8, values: &mut [u64; 3]) -> u64
    ensures { Passed (and_then (rule_numbered rule)
        (λ by. besides (λ r. flag_of (flight_v1_failed by r)) (decode_rule Message.FlightResultV1 flight_result_v1 payload.now)))
        failed.old values.old result failed.new values.new }
{
    put(
        LeagueRule::from_number(rule).and_then(|by| flight_v1_failed(by, payload)),
        failed,
        values,
    )
}

// `is_model_failure` of a payload's record: 1 for yes.
pub fn mvd_is_model_failure(payload: &[u8], failed: &mut u8, values: &mut [u64; 3]) -> u64
    ensures { Passed (besides (λ r. flag_of (model_failure r)) (decode_rule Message.FlightResult flight_result payload.now))
        failed.old values.old result failed.new values.new }
{
    put(flight_failed(LeagueRule::Rule1, payload), failed, values)
}

// `is_no_read` of a payload's record: 1 for yes.
pub fn mvd_is_no_read(payload: &[u8], unread: &mut u8, values: &mut [u64; 3]) -> u64
    ensures { Passed (besides (λ r. flag_of (no_read r)) (decode_rule Message.FlightResultV1 flight_result_v1 payload.now))
        unread.old values.old result unread.new values.new }
{
    put(flight_v1_failed(LeagueRule::Rule1, payload), unread, values)
}

// One for each message, so that each decoder is called in one place. They differ in the record alone; a trait that both have, with two impls, is no plainer.
fn flight_failed(rule: LeagueRule, payload: &[u8]) -> Result<u8, WireError>
    ensures { told result ≡ besides (λ r. flag_of (flight_failed rule r)) (decode_rule Message.FlightResult flight_result payload.now) }
{
    let d = FlightResult::decode(payload);
    d.result.map(|()| flag(d.record.is_failed(rule)))
}

fn flight_v1_failed(rule: LeagueRule, payload: &[u8]) -> Result<u8, WireError>
    ensures { told result ≡ besides (λ r. flag_of (flight_v1_failed rule r)) (decode_rule Message.FlightResultV1 flight_result_v1 payload.now) }
{
    let d = FlightResultV1::decode(payload);
    d.result.map(|()| flag(d.record.is_failed(rule)))
}
