// A failed shot, by the league's rule 1 or rule 2: of its speed, its flight time and its carry.
// Which figures these are is the message's own; a shot failed by rule 1 is failed by rule 2 (proofs/Rules).
#![tactic(auto)]

ghost use Rattle.std.specs.Prelude.{◌≡◌};
ghost use Rattle.error.specs.Result.{told};
ghost use Rattle.failure.specs.League.{at_most_zero, below_zero, failed_by, rule_numbered};

use error::WireError;

// The rules by which a league counts failed shots. Seasons are compared, so each stays.
#[derive(Clone, Copy)]
pub enum LeagueRule {
    // No speed, as the Rust has it
    Rule1,
    // From the new season: also no flight time, or a carry below zero
    Rule2,
}

impl LeagueRule {
    // Rule 1 or rule 2 by its number.
    #[tactic(auto, unfolding(crate::specs::League::rule_numbered))]
    pub fn from_number(number: usize) -> Result<LeagueRule, WireError>
        ensures { told result ≡ rule_numbered number }
    {
        match number {
            1 => Ok(LeagueRule::Rule1),
            2 => Ok(LeagueRule::Rule2),
            _ => Err(WireError::NoField { number }),
        }
    }
}

impl TryFrom<usize> for LeagueRule {
    type Error = WireError;

    ghost try_from_gives = { λ number r. told r ≡ rule_numbered number };

    fn try_from(number: usize) -> Result<LeagueRule, WireError> {
        LeagueRule::from_number(number)
    }
}

#[tactic(auto, unfolding(crate::specs::League::fails))]
pub fn failed(rule: LeagueRule, speed: f64, flight_time: f64, carry: f64) -> bool
    ensures { result ≡ failed_by rule speed flight_time carry }
{
    match rule {
        LeagueRule::Rule1 => at_most_zero(speed),
        LeagueRule::Rule2 => at_most_zero(speed) || at_most_zero(flight_time) || below_zero(carry),
    }
}

// No number, or at most zero.
fn at_most_zero(v: f64) -> bool
    ensures { result ≡ at_most_zero v }
{
    v.is_nan() || v <= 0.0
}

// No number, or below zero.
fn below_zero(v: f64) -> bool
    ensures { result ≡ below_zero v }
{
    v.is_nan() || v < 0.0
}
