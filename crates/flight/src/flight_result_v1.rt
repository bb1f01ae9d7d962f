// FlightResultV1 (type E8): decoded whole, or refused with every number of the record zero.
// Each field is the number of its name in specs/FlightResultV1Fields.
ghost use Rattle.std.specs.Prelude.{◌≡◌};
ghost use Rattle.layout.specs.Layout.{told_decoded};
ghost use Rattle.numbers.specs.declared.Message.TheVariants as message;
ghost use Rattle.flight.specs.Decoding.{decode_rule, numbers_of, zeros};
ghost use Rattle.flight.specs.FlightResultV1Fields.{flight_result_v1};
ghost use Rattle.flight.specs.Failure.{flight_v1_failed, no_read};
ghost use Rattle.flight.specs.Zeros.{flight-v1-zeros};

use crate::figures::Payload;
use failure::{LeagueRule, failed};
use layout::{Decoded, Record};
use numbers::{E8, Message};

// What is known of the flight early, one message a shot, ahead of D4. Sideways and turning left is positive.
#[derive(Clone, Copy, Default)]
pub struct FlightResultV1 {
    // Counts the shots
    pub total: i32,
    // m/s
    pub club_velocity: f64,
    // m/s
    pub ball_velocity: f64,
    // s
    pub flight_time: f64,
    // m
    pub distance: f64,
    // m
    pub height: f64,
    // m to the left, where it lands
    pub lateral: f64,
    // degrees upward
    pub elevation: f64,
    // degrees to the left
    pub azimuth: f64,
    // s under track
    pub tracked_time: f64,
    // The only number in millionths
    pub drag: f64,
    // turns a minute
    pub backspin_rpm: i32,
    // turns a minute
    pub sidespin_rpm: i32,
    // Its unit is not told
    pub acceleration: f64,
    // degrees
    pub club_strike_direction: f64,
    // Divides the 15 coefficients that follow; below 1 it is taken for 1
    pub poly_scale: i32,
    // The path's polynomials, coefficients 0 to 4 each
    pub poly_x: [f64; 5],
    pub poly_y: [f64; 5],
    pub poly_z: [f64; 5],
}

impl FlightResultV1 {
    // Whether the shot failed by a rule of the league.
    pub fn is_failed(self, rule: LeagueRule) -> bool
        ensures { result ≡ flight_v1_failed rule self }
    {
        failed(rule, self.ball_velocity, self.flight_time, self.distance)
    }

    // The device woke and tracked no ball: no ball velocity.
    pub fn is_no_read(self) -> bool
        ensures { result ≡ no_read self }
    {
        self.is_failed(LeagueRule::Rule1)
    }

    #[inline(always)]
    pub fn decode(payload: &[u8]) -> Decoded<FlightResultV1>
        ensures { told_decoded result ≡ decode_rule Message.FlightResultV1 flight_result_v1 payload.now }
    {
        layout::decode(payload)
    }
}

impl Record for FlightResultV1 {
    ghost KIND = { 0xE8 };

    ghost LEAST = { 94 };

    ghost filled = { λ p. flight_result_v1 (numbers_of message.FlightResultV1 p) };

    ghost nothing = { flight_result_v1 zeros };

    const KIND: u8 = E8.kind;

    const LEAST: usize = E8.least;

    #[inline(always)]
    fn read(payload: &[u8]) -> FlightResultV1 {
        let p = Payload {
            message: Message::FlightResultV1,
            bytes: payload,
            scale: Message::FlightResultV1.scale(payload),
        };
        FlightResultV1 {
            total: p.whole(0),
            club_velocity: p.figure(1),
            ball_velocity: p.figure(2),
            flight_time: p.figure(3),
            distance: p.figure(4),
            height: p.figure(5),
            lateral: p.figure(6),
            elevation: p.figure(7),
            azimuth: p.figure(8),
            tracked_time: p.figure(9),
            drag: p.figure(10),
            backspin_rpm: p.whole(11),
            sidespin_rpm: p.whole(12),
            acceleration: p.figure(13),
            club_strike_direction: p.figure(14),
            poly_scale: p.whole(15),
            poly_x: p.figures(16),
            poly_y: p.figures(21),
            poly_z: p.figures(26),
        }
    }

    ghost default_is_nothing = { flight-v1-zeros };
}
