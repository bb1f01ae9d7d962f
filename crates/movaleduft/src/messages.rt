// Messages for C: each call decodes a payload, or a point of it.
// Each call is the library's of that name, and promises what that one does.

ghost use Rattle.std.specs.Prelude.{length, ◌≡◌};
ghost use Rattle.abi.specs.Answer.{Passed, besides, both};
ghost use Rattle.abi_club_prc.specs.Numbers.{club_numbers};
ghost use Rattle.abi_flight.specs.Records.{club_figures, club_whole, flight_figures, flight_v1_figures, flight_v1_whole, flight_whole};
ghost use Rattle.abi_prc.specs.Numbers.{data_numbers, prc_numbers};
ghost use Rattle.abi_shot_text.specs.Flags.{Flags};
ghost use Rattle.abi_speed_profile.specs.Numbers.{profile_numbers};
ghost use Rattle.abi_spin.specs.Numbers.{spin_numbers};
ghost use Rattle.abi_tracking.specs.Numbers.{tracking_numbers};
ghost use Rattle.club_prc.specs.Points.{club_point_of, club_points};
ghost use Rattle.club_prc.specs.Request.{request_of};
ghost use Rattle.error.specs.Refusal.{on_yes, yes};
ghost use Rattle.flight.specs.ClubResultFields.{club_result};
ghost use Rattle.flight.specs.Decoding.{decode_rule};
ghost use Rattle.flight.specs.FlightResultFields.{flight_result};
ghost use Rattle.flight.specs.FlightResultV1Fields.{flight_result_v1};
ghost use Rattle.integer_write.specs.Writing.{writing, written};
ghost use Rattle.layout.specs.Layout.{answered, source_of};
ghost use Rattle.points.specs.Point.{point_answer, point_source};
ghost use Rattle.prc.specs.Points.{prc_data, prc_point_of, prc_points, prc_told};
ghost use Rattle.shot_text.specs.Search.{Stands, bytes};
ghost use Rattle.shot_text.specs.Trim.{place_of};
ghost use Rattle.speed_profile.specs.Profile.{speed_rule, speeds_after};
ghost use Rattle.spin.specs.Tables.{spin_of};
ghost use Rattle.tracking.specs.Table.{tracking_of};

use numbers::Message;

#[unsafe(no_mangle)]
pub extern "C" fn mvd_flight_result(
    payload: &[u8],
    whole: &mut [i32; 8],
    figures: &mut [f64; 44],
    values: &mut [u64; 3],
) -> u64
    ensures { Passed (besides (both flight_whole flight_figures) (decode_rule Message.FlightResult flight_result payload.now))
        (whole.old, figures.old) values.old result (whole.new, figures.new) values.new }
{
    abi_flight::mvd_flight_result(payload, whole, figures, values)
}

#[unsafe(no_mangle)]
pub extern "C" fn mvd_flight_result_v1(
    payload: &[u8],
    whole: &mut [i32; 4],
    figures: &mut [f64; 27],
    values: &mut [u64; 3],
) -> u64
    ensures { Passed (besides (both flight_v1_whole flight_v1_figures) (decode_rule Message.FlightResultV1 flight_result_v1 payload.now))
        (whole.old, figures.old) values.old result (whole.new, figures.new) values.new }
{
    abi_flight::mvd_flight_result_v1(payload, whole, figures, values)
}

#[unsafe(no_mangle)]
pub extern "C" fn mvd_club_result(
    payload: &[u8],
    whole: &mut [i32; 3],
    figures: &mut [f64; 53],
    values: &mut [u64; 3],
) -> u64
    ensures { Passed (besides (both club_whole club_figures) (decode_rule Message.ClubResult club_result payload.now))
        (whole.old, figures.old) values.old result (whole.new, figures.new) values.new }
{
    abi_flight::mvd_club_result(payload, whole, figures, values)
}

#[unsafe(no_mangle)]
pub extern "C" fn mvd_spin_result(
    payload: &[u8],
    whole: &mut [i32; 46],
    figures: &mut [f64; 16],
    values: &mut [u64; 3],
) -> u64
    ensures { Passed (on_yes (λ _. spin_numbers (spin_of (source_of 138 payload.now))) (answered 0xEF 138 payload.now))
        (whole.old, figures.old) values.old result (whole.new, figures.new) values.new }
{
    abi_spin::mvd_spin_result(payload, whole, figures, values)
}

// Not by way of `TrackingStatus::decode`: all of its numbers would be read before the first is stored, more than there are registers.
#[unsafe(no_mangle)]
pub extern "C" fn mvd_tracking_status(
    payload: &[u8],
    counts: &mut [u64; 16],
    whole: &mut [i32; 4],
    values: &mut [u64; 3],
) -> u64
    ensures { Passed (on_yes (λ _. tracking_numbers (tracking_of (source_of 82 payload.now))) (answered 0xE9 82 payload.now))
        (counts.old, whole.old) values.old result (counts.new, whole.new) values.new }
{
    abi_tracking::mvd_tracking_status(payload, counts, whole, values)
}

#[unsafe(no_mangle)]
pub extern "C" fn mvd_speed_profile(
    payload: &[u8],
    speeds: &mut [f64],
    whole: &mut [i32; 4],
    samples: &mut usize,
    time_interval: &mut f64,
    values: &mut [u64; 3],
) -> u64
    ensures passed { Passed (on_yes profile_numbers (speed_rule payload.now (length speeds.old)))
        (whole.old, samples.old, time_interval.old) values.old result
        (whole.new, samples.new, time_interval.new) values.new }
    ensures speeds_after { speeds.new ≡ speeds_after payload.now speeds.old }
{
    abi_speed_profile::mvd_speed_profile(payload, speeds, whole, samples, time_interval, values)
}

#[unsafe(no_mangle)]
pub extern "C" fn mvd_prc_data(
    payload: &[u8],
    sequence: &mut i16,
    points: &mut usize,
    values: &mut [u64; 3],
) -> u64
    ensures { Passed (on_yes data_numbers (prc_told (yes (prc_data payload.now)) payload.now))
        (sequence.old, points.old) values.old result (sequence.new, points.new) values.new }
{
    abi_prc::mvd_prc_data(payload, sequence, points, values)
}

#[unsafe(no_mangle)]
pub extern "C" fn mvd_prc_point(
    payload: &[u8],
    index: usize,
    whole: &mut [i32; 8],
    figures: &mut [f64; 16],
    values: &mut [u64; 3],
) -> u64
    ensures { Passed (on_yes (λ _. prc_numbers (prc_point_of (point_source 4 60 (prc_points payload.now) payload.now index)))
        (prc_told (point_answer (prc_points payload.now) index) payload.now))
        (whole.old, figures.old) values.old result (whole.new, figures.new) values.new }
{
    abi_prc::mvd_prc_point(payload, index, whole, figures, values)
}

#[unsafe(no_mangle)]
pub extern "C" fn mvd_club_prc(payload: &[u8]) -> usize
    ensures { result ≡ club_points payload.now }
{
    abi_club_prc::mvd_club_prc(payload)
}

#[unsafe(no_mangle)]
pub extern "C" fn mvd_club_prc_point(
    payload: &[u8],
    index: usize,
    whole: &mut [i32; 9],
    figures: &mut [f64; 20],
    values: &mut [u64; 3],
) -> u64
    ensures { Passed (on_yes (λ _. club_numbers (club_point_of (point_source 1 76 (club_points payload.now) payload.now index)))
        (point_answer (club_points payload.now) index))
        (whole.old, figures.old) values.old result (whole.new, figures.new) values.new }
{
    abi_club_prc::mvd_club_prc_point(payload, index, whole, figures, values)
}

#[unsafe(no_mangle)]
pub extern "C" fn mvd_encode_request(start_index: u16, buf: &mut [u8], values: &mut [u64; 3]) -> u64
    ensures passed { Passed (writing (request_of start_index) buf.old 0) tt values.old result tt values.new }
    ensures buf_after { buf.new ≡ written (request_of start_index) buf.old 0 }
{
    abi_club_prc::mvd_encode_request(start_index, buf, values)
}

#[unsafe(no_mangle)]
pub extern "C" fn mvd_shot_text(payload: &[u8], start: &mut usize, len: &mut usize)
    ensures start_after { start.new ≡ (place_of payload.now).start }
    ensures len_after { len.new ≡ (place_of payload.now).len }
{
    abi_shot_text::mvd_shot_text(payload, start, len);
}

#[unsafe(no_mangle)]
pub extern "C" fn mvd_is_processed(text: &[u8]) -> u8
    ensures { Flags (Stands (bytes "PROCESSED") text.now) result }
{
    abi_shot_text::mvd_is_processed(text)
}

#[unsafe(no_mangle)]
pub extern "C" fn mvd_is_idle(text: &[u8]) -> u8
    ensures { Flags (Stands (bytes "IDLE") text.now) result }
{
    abi_shot_text::mvd_is_idle(text)
}

#[unsafe(no_mangle)]
pub extern "C" fn mvd_is_trigger(text: &[u8]) -> u8
    ensures { Flags (Stands (bytes "BALL TRIGGER") text.now) result }
{
    abi_shot_text::mvd_is_trigger(text)
}
