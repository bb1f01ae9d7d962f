// D4, E8 and ED for C: each call is the decoder of that message, its record's numbers in two lent arrays.
// What it tells, and every lent place, is that decoder's rule; what stands where is specs/Records.
#![tactic(auto)]

ghost use Rattle.std.specs.Prelude.{◌≡◌};
ghost use Rattle.layout.specs.Layout.{told_decoded};
ghost use Rattle.flight.specs.Decoding.{decode_rule};
ghost use Rattle.flight.specs.FlightResultFields.{flight_result};
ghost use Rattle.flight.specs.FlightResultV1Fields.{flight_result_v1};
ghost use Rattle.flight.specs.ClubResultFields.{club_result};
ghost use Rattle.abi.specs.Answer.{both, Passed, besides};
ghost use Rattle.abi_flight.specs.Records.{flight_whole, flight_figures, flight_v1_whole, flight_v1_figures, club_whole, club_figures};

use abi::tell;
use flight::{ClubResult, FlightResult, FlightResultV1};
use layout::Decoded;
use numbers::Message;

pub fn mvd_flight_result(
    payload: &[u8],
    whole: &mut [i32; 8],
    figures: &mut [f64; 44],
    values: &mut [u64; 3],
) -> u64
    ensures { Passed (besides (both flight_whole flight_figures) (decode_rule Message.FlightResult flight_result payload.now))
        (whole.old, figures.old) values.old result (whole.new, figures.new) values.new }
{
    list(FlightResult::decode(payload), whole, figures, values)
}

pub fn mvd_flight_result_v1(
    payload: &[u8],
    whole: &mut [i32; 4],
    figures: &mut [f64; 27],
    values: &mut [u64; 3],
) -> u64
    ensures { Passed (besides (both flight_v1_whole flight_v1_figures) (decode_rule Message.FlightResultV1 flight_result_v1 payload.now))
        (whole.old, figures.old) values.old result (whole.new, figures.new) values.new }
{
    list(FlightResultV1::decode(payload), whole, figures, values)
}

pub fn mvd_club_result(
    payload: &[u8],
    whole: &mut [i32; 3],
    figures: &mut [f64; 53],
    values: &mut [u64; 3],
) -> u64
    ensures { Passed (besides (both club_whole club_figures) (decode_rule Message.ClubResult club_result payload.now))
        (whole.old, figures.old) values.old result (whole.new, figures.new) values.new }
{
    list(ClubResult::decode(payload), whole, figures, values)
}

// A record that is listed for C: its whole numbers, and then its figures.
trait Listed {
    type Whole: Copy;

    type Figures: Copy;

    ghost whole_of: { Self → Self.Whole };

    ghost figures_of: { Self → Self.Figures };

    fn whole(self) -> Self::Whole
        ensures { result ≡ whole_of self };

    fn figures(self) -> Self::Figures
        ensures { result ≡ figures_of self };
}

// What a decoder tells, and its record's numbers in their places.
fn list<R: Listed + Copy>(
    d: Decoded<R>,
    whole: &mut R::Whole,
    figures: &mut R::Figures,
    values: &mut [u64; 3],
) -> u64
    ensures { Passed (besides (both R.whole_of R.figures_of) (told_decoded d)) (whole.old, figures.old) values.old
        result (whole.new, figures.new) values.new }
{
    match d.result {
        Ok(()) => {
            *whole = d.record.whole();
            *figures = d.record.figures();
            0
        }
        Err(e) => tell(e, values),
    }
}

impl Listed for FlightResult {
    type Whole = [i32; 8];

    type Figures = [f64; 44];

    ghost whole_of = { flight_whole };

    ghost figures_of = { flight_figures };

    fn whole(self) -> [i32; 8] {
        let s = self.landing_spin_rpm;
        [
            self.total,
            self.backspin_rpm,
            self.sidespin_rpm,
            self.riflespin_rpm,
            s[0],
            s[1],
            s[2],
            self.poly_scale,
        ]
    }

    fn figures(self) -> [f64; 44] {
        let s = self.start_position;
        let l = self.landing_position;
        let v = self.landing_velocity;
        let f = self.final_position;
        let x = self.poly_x;
        let y = self.poly_y;
        let z = self.poly_z;
        [
            self.track_time,
            s[0],
            s[1],
            s[2],
            self.launch_speed,
            self.launch_azimuth,
            self.launch_elevation,
            self.carry_distance,
            self.flight_time,
            self.max_height,
            l[0],
            l[1],
            l[2],
            v[0],
            v[1],
            v[2],
            self.total_distance,
            self.roll_distance,
            f[0],
            f[1],
            f[2],
            self.clubhead_speed,
            self.club_strike_direction,
            self.club_attack_angle,
            self.clubhead_speed_post,
            self.club_swing_plane_tilt,
            self.club_swing_plane_rotation,
            self.club_effective_loft,
            self.club_face_angle,
            x[0],
            x[1],
            x[2],
            x[3],
            x[4],
            y[0],
            y[1],
            y[2],
            y[3],
            y[4],
            z[0],
            z[1],
            z[2],
            z[3],
            z[4],
        ]
    }
}

impl Listed for FlightResultV1 {
    type Whole = [i32; 4];

    type Figures = [f64; 27];

    ghost whole_of = { flight_v1_whole };

    ghost figures_of = { flight_v1_figures };

    fn whole(self) -> [i32; 4] {
        [
            self.total,
            self.backspin_rpm,
            self.sidespin_rpm,
            self.poly_scale,
        ]
    }

    fn figures(self) -> [f64; 27] {
        let x = self.poly_x;
        let y = self.poly_y;
        let z = self.poly_z;
        [
            self.club_velocity,
            self.ball_velocity,
            self.flight_time,
            self.distance,
            self.height,
            self.lateral,
            self.elevation,
            self.azimuth,
            self.tracked_time,
            self.drag,
            self.acceleration,
            self.club_strike_direction,
            x[0],
            x[1],
            x[2],
            x[3],
            x[4],
            y[0],
            y[1],
            y[2],
            y[3],
            y[4],
            z[0],
            z[1],
            z[2],
            z[3],
            z[4],
        ]
    }
}

impl Listed for ClubResult {
    type Whole = [i32; 3];

    type Figures = [f64; 53];

    ghost whole_of = { club_whole };

    ghost figures_of = { club_figures };

    fn whole(self) -> [i32; 3] {
        [self.num_club_prc_points as i32, self.flags, self.poly_scale]
    }

    // Each coefficient by its index: copied as a row, they cost a call of memcpy, and a list begun with zeros one of memset.
    // So the archive for C needs no name from outside.
    fn figures(self) -> [f64; 53] {
        let c = self.poly_coeffs;
        [
            self.pre_club_speed,
            self.post_club_speed,
            self.strike_direction,
            self.attack_angle,
            self.face_angle,
            self.dynamic_loft,
            self.smash_factor,
            self.dispersion_correction,
            self.swing_plane_horizontal,
            self.swing_plane_vertical,
            self.club_azimuth,
            self.club_elevation,
            self.club_offset,
            self.club_height,
            c[0],
            c[1],
            c[2],
            c[3],
            c[4],
            c[5],
            c[6],
            c[7],
            c[8],
            c[9],
            c[10],
            c[11],
            c[12],
            c[13],
            c[14],
            c[15],
            c[16],
            c[17],
            c[18],
            c[19],
            c[20],
            c[21],
            c[22],
            c[23],
            c[24],
            c[25],
            c[26],
            c[27],
            c[28],
            c[29],
            c[30],
            c[31],
            c[32],
            c[33],
            c[34],
            c[35],
            self.pre_impact_time,
            self.post_impact_time,
            self.club_to_ball_time,
        ]
    }
}
