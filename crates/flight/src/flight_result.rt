// FlightResult (type D4): decoded whole, or refused with every number of the record zero.
// Each field is the number of its name in specs/FlightResultFields.
ghost use Rattle.std.specs.Prelude.{◌≡◌};
ghost use Rattle.layout.specs.Layout.{told_decoded};
ghost use Rattle.numbers.specs.declared.Message.TheVariants as message;
ghost use Rattle.flight.specs.Decoding.{decode_rule, numbers_of, zeros};
ghost use Rattle.flight.specs.FlightResultFields.{flight_result};
ghost use Rattle.flight.specs.Failure.{flight_failed, model_failure};
ghost use Rattle.flight.specs.Zeros.{flight-zeros};

use crate::figures::Payload;
use failure::{LeagueRule, failed};
use layout::{Decoded, Record};
use numbers::{D4, Message};

// The ball's whole flight, one message a shot. Sideways and turning left is positive; a position is forward, up, left.
#[derive(Clone, Copy, Default)]
pub struct FlightResult {
    // Counts the shots
    pub total: i32,
    // s under track
    pub track_time: f64,
    // m
    pub start_position: [f64; 3],
    // m/s
    pub launch_speed: f64,
    // degrees to the left
    pub launch_azimuth: f64,
    // degrees upward
    pub launch_elevation: f64,
    // m
    pub carry_distance: f64,
    // s
    pub flight_time: f64,
    // m
    pub max_height: f64,
    // m
    pub landing_position: [f64; 3],
    // turns a minute
    pub backspin_rpm: i32,
    // turns a minute; the ball curves left where it is positive
    pub sidespin_rpm: i32,
    // turns a minute
    pub riflespin_rpm: i32,
    // turns a minute, three of them
    pub landing_spin_rpm: [i32; 3],
    // m/s
    pub landing_velocity: [f64; 3],
    // m by name; the device puts diagnostics there
    pub total_distance: f64,
    // m; the device sends 0
    pub roll_distance: f64,
    // m; the device sends zeros
    pub final_position: [f64; 3],
    // m/s
    pub clubhead_speed: f64,
    // degrees of the club's path to the left
    pub club_strike_direction: f64,
    // degrees
    pub club_attack_angle: f64,
    // m/s after impact
    pub clubhead_speed_post: f64,
    // degrees
    pub club_swing_plane_tilt: f64,
    // degrees to the left
    pub club_swing_plane_rotation: f64,
    // degrees
    pub club_effective_loft: f64,
    // degrees to the left
    pub club_face_angle: f64,
    // Divides the 15 coefficients that follow; 0 is taken for 1
    pub poly_scale: i32,
    // The path's polynomials, coefficients 0 to 4 each
    pub poly_x: [f64; 5],
    pub poly_y: [f64; 5],
    pub poly_z: [f64; 5],
}

impl FlightResult {
    // Whether the shot failed by a rule of the league.
    pub fn is_failed(self, rule: LeagueRule) -> bool
        ensures { result ≡ flight_failed rule self }
    {
        failed(
            rule,
            self.launch_speed,
            self.flight_time,
            self.carry_distance,
        )
    }

    // No flight was found, as where a net stops the ball: no launch speed. The E8 sent before it stays good.
    pub fn is_model_failure(self) -> bool
        ensures { result ≡ model_failure self }
    {
        self.is_failed(LeagueRule::Rule1)
    }

    #[inline(always)]
    pub fn decode(payload: &[u8]) -> Decoded<FlightResult>
        ensures { told_decoded result ≡ decode_rule Message.FlightResult flight_result payload.now }
    {
        layout::decode(payload)
    }
}

impl Record for FlightResult {
    ghost KIND = { 0xD4 };

    ghost LEAST = { 157 };

    ghost filled = { λ p. flight_result (numbers_of message.FlightResult p) };

    ghost nothing = { flight_result zeros };

    const KIND: u8 = D4.kind;

    const LEAST: usize = D4.least;

    #[inline(always)]
    fn read(payload: &[u8]) -> FlightResult {
        let p = Payload {
            message: Message::FlightResult,
            bytes: payload,
            scale: Message::FlightResult.scale(payload),
        };
        FlightResult {
            total: p.whole(0),
            track_time: p.figure(1),
            start_position: p.figures(2),
            launch_speed: p.figure(5),
            launch_azimuth: p.figure(6),
            launch_elevation: p.figure(7),
            carry_distance: p.figure(8),
            flight_time: p.figure(9),
            max_height: p.figure(10),
            landing_position: p.figures(11),
            backspin_rpm: p.whole(14),
            sidespin_rpm: p.whole(15),
            riflespin_rpm: p.whole(16),
            landing_spin_rpm: p.wholes(17),
            landing_velocity: p.figures(20),
            total_distance: p.figure(23),
            roll_distance: p.figure(24),
            final_position: p.figures(25),
            clubhead_speed: p.figure(28),
            club_strike_direction: p.figure(29),
            club_attack_angle: p.figure(30),
            clubhead_speed_post: p.figure(31),
            club_swing_plane_tilt: p.figure(32),
            club_swing_plane_rotation: p.figure(33),
            club_effective_loft: p.figure(34),
            club_face_angle: p.figure(35),
            poly_scale: p.whole(36),
            poly_x: p.figures(37),
            poly_y: p.figures(42),
            poly_z: p.figures(47),
        }
    }

    ghost default_is_nothing = { flight-zeros };
}
