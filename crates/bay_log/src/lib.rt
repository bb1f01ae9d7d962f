// The bay log: one record of 32 bytes for a shot, from its event number and its D4 payload.
// The record fills the front of the lent buffer and the rest keeps its bytes; a refusal writes nothing. docs/BAY_LOG.md has the layout.
#![tactic(auto)]

ghost use Rattle.std.specs.Prelude.{◌≡◌, ◌<◌};
ghost use Rattle.error.specs.Result.{told};
ghost use Rattle.integer_write.specs.Writing.{int_bytes, writing, written};
ghost use Rattle.numbers.specs.Numbers.{count_of, whole_of};
ghost use Rattle.bay_log.specs.Log.{shown_of, log_rule};

use error::WireError;
use integer_write::{write_int24, write_int32, write_uint32};
use numbers::{D4, Message};

// Places in the buffer are the record's, numbers D4's.
pub fn write_record(buf: &mut [u8], event: u32, payload: &[u8]) -> Result<(), WireError>
    ensures { (told result, buf.new) ≡ log_rule event payload.now buf.old }
{
    let got = payload.len();
    if got < D4.least {
        return Err(WireError::payload_too_short(D4.kind, D4.least, got));
    }
    let room = buf.len();
    if room < 32 {
        return Err(WireError::NoRoom {
            need: 32,
            got: room,
        });
    }
    write_uint32(buf, 0, event)?;
    buf[4] = D4.kind;
    write_int24(buf, 5, Message::FlightResult.whole(payload, 0))?; // total
    write_shown(buf, 8, payload, 5)?; // launch speed
    write_shown(buf, 12, payload, 6)?; // azimuth
    write_shown(buf, 16, payload, 7)?; // elevation
    write_shown(buf, 20, payload, 8)?; // carry
    write_shown(buf, 24, payload, 10)?; // max height
    write_int32(buf, 28, Message::FlightResult.whole(payload, 14)) // backspin
}

// The shown figure of a number of the payload, written at a place of the buffer.
fn write_shown(
    buf: &mut [u8],
    offset: usize,
    payload: &[u8],
    number: usize,
) -> Result<(), WireError>
    requires { number < count_of Message.FlightResult }
    ensures { (told result ≡ writing (int_bytes 4 (shown_of (whole_of Message.FlightResult payload.now number))) buf.old offset)
        × (buf.new ≡ written (int_bytes 4 (shown_of (whole_of Message.FlightResult payload.now number))) buf.old offset) }
{
    write_int32(
        buf,
        offset,
        shown(Message::FlightResult.whole(payload, number)),
    )
}

// Thousandths as the log shows them: the nearest tenth, halves away from zero.
fn shown(thousandths: i32) -> i32
    ensures { result ≡ shown_of thousandths }
{
    let halves = thousandths / 50;
    halves - halves / 2 // of an odd number of half tenths the greater part
}
