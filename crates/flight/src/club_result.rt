// ClubResult (type ED): decoded whole, or refused with every number of the record zero.
// Each field is the number of its name in specs/ClubResultFields.
ghost use Rattle.std.specs.Prelude.{◌≡◌};
ghost use Rattle.layout.specs.Layout.{told_decoded};
ghost use Rattle.numbers.specs.declared.Message.TheVariants as message;
ghost use Rattle.flight.specs.Decoding.{decode_rule, numbers_of, zeros};
ghost use Rattle.flight.specs.ClubResultFields.{club_result};
ghost use Rattle.flight.specs.Zeros.{club-zeros};

use crate::figures::Payload;
use integer::byte_at;
use layout::{Decoded, Record};
use numbers::{ED, Message};

// The club head at impact; the device sends it twice a shot. Turning left is positive.
#[derive(Clone, Copy, Default)]
pub struct ClubResult {
    // How many points the club was tracked at; EE has them
    pub num_club_prc_points: u8,
    // As sent
    pub flags: i32,
    // m/s before impact
    pub pre_club_speed: f64,
    // m/s after it
    pub post_club_speed: f64,
    // degrees of the club's path to the left
    pub strike_direction: f64,
    // degrees
    pub attack_angle: f64,
    // degrees to the left
    pub face_angle: f64,
    // degrees
    pub dynamic_loft: f64,
    // A ratio
    pub smash_factor: f64,
    // Its unit is not told
    pub dispersion_correction: f64,
    // degrees to the left
    pub swing_plane_horizontal: f64,
    // degrees
    pub swing_plane_vertical: f64,
    // degrees
    pub club_azimuth: f64,
    // degrees
    pub club_elevation: f64,
    // m
    pub club_offset: f64,
    // m
    pub club_height: f64,
    // Divides the 36 coefficients that follow; 0 is taken for 1
    pub poly_scale: i32,
    // Twelve polynomials of three coefficients in a row: v, x, y, z, YX and ZX, each before and then after impact
    pub poly_coeffs: [f64; 36],
    // ms
    pub pre_impact_time: f64,
    // ms
    pub post_impact_time: f64,
    // ms from club to ball
    pub club_to_ball_time: f64,
}

impl ClubResult {
    pub fn decode(payload: &[u8]) -> Decoded<ClubResult>
        ensures { told_decoded result ≡ decode_rule Message.ClubResult club_result payload.now }
    {
        layout::decode(payload)
    }
}

impl Record for ClubResult {
    ghost KIND = { 0xED };

    ghost LEAST = { 167 };

    ghost filled = { λ p. club_result (numbers_of message.ClubResult p) };

    ghost nothing = { club_result zeros };

    const KIND: u8 = ED.kind;

    const LEAST: usize = ED.least;

    fn read(payload: &[u8]) -> ClubResult {
        let p = Payload {
            message: Message::ClubResult,
            bytes: payload,
            scale: Message::ClubResult.scale(payload),
        };
        ClubResult {
            num_club_prc_points: byte_at(payload, 1),
            flags: p.whole(0),
            pre_club_speed: p.figure(1),
            post_club_speed: p.figure(2),
            strike_direction: p.figure(3),
            attack_angle: p.figure(4),
            face_angle: p.figure(5),
            dynamic_loft: p.figure(6),
            smash_factor: p.figure(7),
            dispersion_correction: p.figure(8),
            swing_plane_horizontal: p.figure(9),
            swing_plane_vertical: p.figure(10),
            club_azimuth: p.figure(11),
            club_elevation: p.figure(12),
            club_offset: p.figure(13),
            club_height: p.figure(14),
            poly_scale: p.whole(15),
            poly_coeffs: p.coefficients(16),
            pre_impact_time: p.figure(52),
            post_impact_time: p.figure(53),
            club_to_ball_time: p.figure(54),
        }
    }

    ghost default_is_nothing = { club-zeros };
}
