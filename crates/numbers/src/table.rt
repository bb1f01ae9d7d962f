// The shapes of D4, E8 and ED, and their divisors by number: 0 is a count, 1 the message's own scale.
// Every crate takes a message's type byte and least length from here; the list keeps document 01's rule (proofs/Divisors).
use crate::Shape;

pub const D4: Shape = Shape {
    kind: 0xD4,
    least: 157,
    base: 1,
    count: 52,
    scale: 36,
    first: 0,
};

pub const E8: Shape = Shape {
    kind: 0xE8,
    least: 94,
    base: 1,
    count: 31,
    scale: 15,
    first: 52,
};

pub const ED: Shape = Shape {
    kind: 0xED,
    least: 167,
    base: 2,
    count: 55,
    scale: 15,
    first: 83,
};

// One list of numbers, as document 01 names it: so 0 and 1 stand in it for the two rules that have no number.
pub const DIVISORS: [u32; 138] = [
    // D4
    0, // 0 total
    1000, // 1 track_time
    1000, // 2 start_position[0]
    1000, // 3 start_position[1]
    1000, // 4 start_position[2]
    1000, // 5 launch_speed
    1000, // 6 launch_azimuth
    1000, // 7 launch_elevation
    1000, // 8 carry_distance
    1000, // 9 flight_time
    1000, // 10 max_height
    1000, // 11 landing_position[0]
    1000, // 12 landing_position[1]
    1000, // 13 landing_position[2]
    0, // 14 backspin_rpm
    0, // 15 sidespin_rpm
    0, // 16 riflespin_rpm
    0, // 17 landing_spin_rpm[0]
    0, // 18 landing_spin_rpm[1]
    0, // 19 landing_spin_rpm[2]
    1000, // 20 landing_velocity[0]
    1000, // 21 landing_velocity[1]
    1000, // 22 landing_velocity[2]
    1000, // 23 total_distance
    1000, // 24 roll_distance
    1000, // 25 final_position[0]
    1000, // 26 final_position[1]
    1000, // 27 final_position[2]
    1000, // 28 clubhead_speed
    1000, // 29 club_strike_direction
    1000, // 30 club_attack_angle
    1000, // 31 clubhead_speed_post
    1000, // 32 club_swing_plane_tilt
    1000, // 33 club_swing_plane_rotation
    1000, // 34 club_effective_loft
    1000, // 35 club_face_angle
    0, // 36 poly_scale
    1, // 37 poly_x[0]
    1, // 38 poly_x[1]
    1, // 39 poly_x[2]
    1, // 40 poly_x[3]
    1, // 41 poly_x[4]
    1, // 42 poly_y[0]
    1, // 43 poly_y[1]
    1, // 44 poly_y[2]
    1, // 45 poly_y[3]
    1, // 46 poly_y[4]
    1, // 47 poly_z[0]
    1, // 48 poly_z[1]
    1, // 49 poly_z[2]
    1, // 50 poly_z[3]
    1, // 51 poly_z[4]
    // E8
    0, // 0 total
    1000, // 1 club_velocity
    1000, // 2 ball_velocity
    1000, // 3 flight_time
    1000, // 4 distance
    1000, // 5 height
    1000, // 6 lateral
    1000, // 7 elevation
    1000, // 8 azimuth
    1000, // 9 tracked_time
    1000000, // 10 drag
    0, // 11 backspin_rpm
    0, // 12 sidespin_rpm
    1000, // 13 acceleration
    1000, // 14 club_strike_direction
    0, // 15 poly_scale
    1, // 16 poly_x[0]
    1, // 17 poly_x[1]
    1, // 18 poly_x[2]
    1, // 19 poly_x[3]
    1, // 20 poly_x[4]
    1, // 21 poly_y[0]
    1, // 22 poly_y[1]
    1, // 23 poly_y[2]
    1, // 24 poly_y[3]
    1, // 25 poly_y[4]
    1, // 26 poly_z[0]
    1, // 27 poly_z[1]
    1, // 28 poly_z[2]
    1, // 29 poly_z[3]
    1, // 30 poly_z[4]
    // ED
    0, // 0 flags
    100, // 1 pre_club_speed
    100, // 2 post_club_speed
    100, // 3 strike_direction
    100, // 4 attack_angle
    100, // 5 face_angle
    100, // 6 dynamic_loft
    1000, // 7 smash_factor
    1000, // 8 dispersion_correction
    100, // 9 swing_plane_horizontal
    100, // 10 swing_plane_vertical
    100, // 11 club_azimuth
    100, // 12 club_elevation
    1000, // 13 club_offset
    1000, // 14 club_height
    0, // 15 poly_scale
    1, // 16 poly_coeffs[0]
    1, // 17 poly_coeffs[1]
    1, // 18 poly_coeffs[2]
    1, // 19 poly_coeffs[3]
    1, // 20 poly_coeffs[4]
    1, // 21 poly_coeffs[5]
    1, // 22 poly_coeffs[6]
    1, // 23 poly_coeffs[7]
    1, // 24 poly_coeffs[8]
    1, // 25 poly_coeffs[9]
    1, // 26 poly_coeffs[10]
    1, // 27 poly_coeffs[11]
    1, // 28 poly_coeffs[12]
    1, // 29 poly_coeffs[13]
    1, // 30 poly_coeffs[14]
    1, // 31 poly_coeffs[15]
    1, // 32 poly_coeffs[16]
    1, // 33 poly_coeffs[17]
    1, // 34 poly_coeffs[18]
    1, // 35 poly_coeffs[19]
    1, // 36 poly_coeffs[20]
    1, // 37 poly_coeffs[21]
    1, // 38 poly_coeffs[22]
    1, // 39 poly_coeffs[23]
    1, // 40 poly_coeffs[24]
    1, // 41 poly_coeffs[25]
    1, // 42 poly_coeffs[26]
    1, // 43 poly_coeffs[27]
    1, // 44 poly_coeffs[28]
    1, // 45 poly_coeffs[29]
    1, // 46 poly_coeffs[30]
    1, // 47 poly_coeffs[31]
    1, // 48 poly_coeffs[32]
    1, // 49 poly_coeffs[33]
    1, // 50 poly_coeffs[34]
    1, // 51 poly_coeffs[35]
    100, // 52 pre_impact_time
    100, // 53 post_impact_time
    100, // 54 club_to_ball_time
];
