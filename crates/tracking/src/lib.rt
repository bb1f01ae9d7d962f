// E9: the radar's tracking status, one record beside its answer.
// Every field is the table's in specs/; beside a refusal every number of the record is zero.
#![tactic(auto)]

ghost use Rattle.std.specs.Prelude.{◌≡◌, take};
ghost use Rattle.error.specs.Result.{told};
ghost use Rattle.layout.specs.Layout.{answered, source_of, fields_of, zeros};
ghost use Rattle.tracking.specs.Table.{tracking_of};
ghost use Rattle.tracking.specs.Zeros.{tracking-zeros};

use layout::{Decoded, Record};

// E9, sent five times for a shot, in three phases: where the radar stands in its samples.
#[derive(Default, Drop)]
pub struct TrackingStatus {
    // bits of the state, as sent
    pub state: u8,
    // more bits, as sent
    pub flags: u8,
    // first sample kept from before the trigger, in a ring of 2^18
    pub pre_trig_buf_start: u32,
    // sample of the club's impact; 0xFFFFFF as long as none is known
    pub club_impact_idx: u32,
    // sample of the trigger
    pub trigger_idx: u32,
    // the radar's calibration, as sent
    pub radar_cal1: u32,
    // the same number again
    pub radar_cal2: u32,
    // the AVR's own calibration, as sent
    pub radar_cal_avr: u16,
    // round of processing, from 0 to 2
    pub processing_iteration: u8,
    // grade of the result, as sent
    pub result_quality: u8,
    // kind of detection, as sent
    pub detection_subtype: u8,
    // how many points of EC were tracked
    pub prc_tracking_count: u8,
    // no unit known
    pub radar_measurement: u16,
    // bits of the trigger, as sent
    pub trigger_flags: u8,
    // events so far
    pub event_counter: u16,
    // the level measured from; it may be negative
    pub radar_baseline: i32,
    // three measures after tracking, no unit known; each may be negative
    pub track_measure: [i32; 3],
    // a fourth, never negative
    pub track_measure4: u16,
}

impl TrackingStatus {
    pub fn decode(payload: &[u8]) -> Decoded<TrackingStatus>
        ensures result_value { told result.result ≡ answered 0xE9 82 payload.now }
        ensures record_value { result.«record» ≡ tracking_of (source_of 82 payload.now) }
    {
        layout::decode(payload)
    }
}

impl Record for TrackingStatus {
    ghost KIND = { 0xE9 };

    ghost LEAST = { 82 };

    ghost filled = { λ p. tracking_of (fields_of (take 82 p)) };

    ghost nothing = { tracking_of zeros };

    const KIND: u8 = 0xE9;

    const LEAST: usize = 82;

    fn read(payload: &[u8]) -> TrackingStatus {
        let d = &payload[..payload.len().min(82)];
        TrackingStatus {
            state: integer::byte_at(d, 1),
            flags: integer::byte_at(d, 2),
            pre_trig_buf_start: integer::uint24_at(d, 22),
            club_impact_idx: integer::uint24_at(d, 25),
            trigger_idx: integer::uint24_at(d, 28),
            radar_cal1: integer::uint24_at(d, 32),
            radar_cal2: integer::uint24_at(d, 35),
            radar_cal_avr: integer::uint16_at(d, 38),
            processing_iteration: integer::byte_at(d, 47),
            result_quality: integer::byte_at(d, 48),
            detection_subtype: integer::byte_at(d, 51),
            prc_tracking_count: integer::byte_at(d, 54),
            radar_measurement: integer::uint16_at(d, 56),
            trigger_flags: integer::byte_at(d, 59),
            event_counter: integer::uint16_at(d, 62),
            radar_baseline: integer::int24_at(d, 67),
            track_measure: [
                integer::int24_at(d, 70),
                integer::int24_at(d, 73),
                integer::int24_at(d, 76),
            ],
            track_measure4: integer::uint16_at(d, 80),
        }
    }

    ghost default_is_nothing = { tracking-zeros };
}
