// The messages: each decoded, or a point of it, whether a shot failed, a field by number and the bay log's record.
// The case's numbers are a lent buffer's length, an index, a number, a message or an event.
use crate::case::{Case, low_byte, low_word};
use crate::operation::{MessageCall, RecordCall};
use crate::say::{Float, Line, Refusal, ask, bytes, each, end, lent, one, read, read_two};
use abi_club_prc::mvd_club_prc_point;
use abi_failure::{mvd_is_failed, mvd_is_failed_v1, mvd_is_model_failure, mvd_is_no_read};
use abi_flight::{mvd_club_result, mvd_flight_result, mvd_flight_result_v1};
use abi_prc::{mvd_prc_data, mvd_prc_point};
use abi_shot_text::{mvd_is_idle, mvd_is_processed, mvd_is_trigger};
use abi_spin::mvd_spin_result;
use abi_tracking::mvd_tracking_status;

pub(crate) fn record(
    call: RecordCall,
    index: usize,
    data: &[u8],
    line: &mut Line,
) -> Result<(), Refusal> {
    match call {
        RecordCall::FlightResult => {
            lists(line, decoded(([0; 8], [0.0; 44]), data, mvd_flight_result)?);
        }
        RecordCall::FlightResultV1 => {
            lists(
                line,
                decoded(([0; 4], [0.0; 27]), data, mvd_flight_result_v1)?,
            );
        }
        RecordCall::ClubResult => {
            lists(line, decoded(([0; 3], [0.0; 53]), data, mvd_club_result)?);
        }
        RecordCall::SpinResult => {
            lists(line, decoded(([0; 46], [0.0; 16]), data, mvd_spin_result)?);
        }
        RecordCall::PrcPoint => {
            lists(
                line,
                point(([0; 8], [0.0; 16]), data, index, mvd_prc_point)?,
            );
        }
        RecordCall::ClubPrcPoint => {
            lists(
                line,
                point(([0; 9], [0.0; 20]), data, index, mvd_club_prc_point)?,
            );
        }
    }
    Ok(())
}

// What a call says of a payload.
fn decoded<A: Copy, B: Copy, F: FnOnce(&[u8], &mut A, &mut B, &mut [u64; 3]) -> u64>(
    zeros: (A, B),
    data: &[u8],
    call: F,
) -> Result<(A, B), Refusal>
    requires { F.IsAlwaysCallable call }
{
    read_two(zeros, |a, b, values| call(data, a, b, values))
}

// What it says of a point of one.
fn point<A: Copy, B: Copy, F: FnOnce(&[u8], usize, &mut A, &mut B, &mut [u64; 3]) -> u64>(
    zeros: (A, B),
    data: &[u8],
    index: usize,
    call: F,
) -> Result<(A, B), Refusal>
    requires { F.IsAlwaysCallable call }
{
    read_two(zeros, |a, b, values| call(data, index, a, b, values))
}

// A record's whole numbers, and then its floats.
fn lists<const N: usize, const M: usize>(line: &mut Line, record: ([i32; N], [f64; M])) {
    let (whole, figures) = record;
    line.put("0");
    each(line, &whole, |n| n);
    each(line, &figures, Float);
    end(line);
}

pub(crate) fn answer(
    call: MessageCall,
    case: Case,
    data: &[u8],
    line: &mut Line,
) -> Result<(), Refusal> {
    let a = case.a as usize;
    match call {
        MessageCall::TrackingStatus => tracking_status(data, line)?,
        MessageCall::SpeedProfile => speed_profile(a, data, line),
        MessageCall::PrcData => prc_data(data, line)?,
        MessageCall::ClubPrc => one(line, abi_club_prc::mvd_club_prc(data)),
        MessageCall::ShotText => shot_text(data, line),
        MessageCall::IsModelFailure => {
            one(
                line,
                read(
                    0,
                    |failed, values| mvd_is_model_failure(data, failed, values),
                )?,
            );
        }
        MessageCall::IsNoRead => {
            one(
                line,
                read(0, |unread, values| mvd_is_no_read(data, unread, values))?,
            );
        }
        MessageCall::IsFailed => {
            one(
                line,
                read(0, |failed, values| mvd_is_failed(a, data, failed, values))?,
            );
        }
        MessageCall::IsFailedV1 => {
            one(
                line,
                read(
                    0,
                    |failed, values| mvd_is_failed_v1(a, data, failed, values),
                )?,
            );
        }
        MessageCall::Field => field(case, data, line)?,
        MessageCall::BayLog => bay_log(case, data, line),
    }
    Ok(())
}

// The unsigned numbers come first.
fn tracking_status(data: &[u8], line: &mut Line) -> Result<(), Refusal> {
    let (counts, whole) = decoded(([0; 16], [0; 4]), data, mvd_tracking_status)?;
    line.put("0");
    each(line, &counts, |n| n);
    each(line, &whole, |n| n);
    end(line);
    Ok(())
}

// The lent speeds, refused or not.
fn speed_profile(room: usize, data: &[u8], line: &mut Line) {
    let mut speeds = [-7.25; 64];
    let speeds = &mut speeds[..64.min(room)];
    let mut whole = [0; 4];
    let mut samples = 0;
    let mut interval = 0.0;
    let reply = ask(|values| {
        abi_speed_profile::mvd_speed_profile(
            data,
            speeds,
            &mut whole,
            &mut samples,
            &mut interval,
            values,
        )
    });
    match reply {
        Ok(()) => {
            line.put("0");
            each(line, &whole, |n| n);
            line.put(format_args!(" {samples} {}", Float(interval)));
        }
        Err(refusal) => line.put(refusal),
    }
    each(line, speeds, Float);
    end(line);
}

fn prc_data(data: &[u8], line: &mut Line) -> Result<(), Refusal> {
    let (sequence, points) = decoded((0, 0), data, mvd_prc_data)?;
    line.put(format_args!("0 {sequence} {points} :\n"));
    Ok(())
}

// Where the text lies, whether each of the three words stands in it, and its bytes.
fn shot_text(payload: &[u8], line: &mut Line) {
    let mut start = 0;
    let mut len = 0;
    abi_shot_text::mvd_shot_text(payload, &mut start, &mut len);
    let end = start.saturating_add(len);
    let text = payload.get(start..end).unwrap_or(&[]);
    line.put(format_args!("0 {start} {len}"));
    let found = [
        mvd_is_processed(text),
        mvd_is_idle(text),
        mvd_is_trigger(text),
    ];
    each(line, &found, |n| n);
    bytes(line, text);
}

fn field(case: Case, data: &[u8], line: &mut Line) -> Result<(), Refusal> {
    let message = low_byte(case.b);
    let number = case.a as usize;
    let mut count = 0;
    let mut figure = 0.0;
    let mut is_figure = 0;
    ask(|values| {
        abi_numbers::mvd_field(
            message,
            data,
            number,
            &mut count,
            &mut figure,
            &mut is_figure,
            values,
        )
    })?;
    if is_figure == 1 {
        one(line, Float(figure));
    } else {
        one(line, count);
    }
    Ok(())
}

fn bay_log(case: Case, data: &[u8], line: &mut Line) {
    let mut room = [0xA5; 1024];
    let buf = &mut room[..1024.min(case.b as usize)];
    let event = low_word(case.a);
    let reply = ask(|values| abi_bay_log::mvd_bay_log(event, data, buf, values));
    lent(line, reply, buf);
}
