// Integer fields and FLOAT40 at a place: the operations 01 to 09 read, 11 to 18 and 3A write into the case's own bytes.
// The case's first number is the place, its second a scale's bits, or the value.
use crate::case::{Case, float, low_half, low_word};
use crate::operation::{Reader, Writer};
use crate::say::{Float, Line, Refusal, ask, lent, one, read};
use abi_club_prc::mvd_encode_request;
use abi_codec::reads::{
    mvd_read_float40, mvd_read_int16, mvd_read_int16_scaled, mvd_read_int24, mvd_read_int24_scaled,
    mvd_read_int32, mvd_read_uint16, mvd_read_uint24, mvd_read_uint32,
};
use abi_codec::writes::{
    mvd_write_float40_bits, mvd_write_int16, mvd_write_int24, mvd_write_int32, mvd_write_uint16,
    mvd_write_uint24, mvd_write_uint32,
};

pub(crate) fn reading(
    reader: Reader,
    case: Case,
    data: &[u8],
    line: &mut Line,
) -> Result<(), Refusal> {
    let at = case.a as usize;
    let scale = float(case.b);
    match reader {
        Reader::Int16 => one(line, field(0, data, at, mvd_read_int16)?),
        Reader::Uint16 => one(line, field(0, data, at, mvd_read_uint16)?),
        Reader::Int24 => one(line, field(0, data, at, mvd_read_int24)?),
        Reader::Uint24 => one(line, field(0, data, at, mvd_read_uint24)?),
        Reader::Int32 => one(line, field(0, data, at, mvd_read_int32)?),
        Reader::Uint32 => one(line, field(0, data, at, mvd_read_uint32)?),
        Reader::Float40 => one(line, Float(field(0.0, data, at, mvd_read_float40)?)),
        Reader::Int24Scaled => {
            one(line, Float(scaled(data, at, scale, mvd_read_int24_scaled)?));
        }
        Reader::Int16Scaled => {
            one(line, Float(scaled(data, at, scale, mvd_read_int16_scaled)?));
        }
    }
    Ok(())
}

// What a reader says of a place.
fn field<T: Copy, F: FnOnce(&[u8], usize, &mut T, &mut [u64; 3]) -> u64>(
    zero: T,
    data: &[u8],
    at: usize,
    call: F,
) -> Result<T, Refusal>
    requires { F.IsAlwaysCallable call }
{
    read(zero, |value, values| call(data, at, value, values))
}

// What a reader says of a place, by a scale.
fn scaled<F: FnOnce(&[u8], usize, f64, &mut f64, &mut [u64; 3]) -> u64>(
    data: &[u8],
    at: usize,
    scale: f64,
    call: F,
) -> Result<f64, Refusal>
    requires { F.IsAlwaysCallable call }
{
    read(0.0, |value, values| call(data, at, scale, value, values))
}

// The value is the second number's low bits, read as the field of that kind, or a double's bits; the request for club points has no place.
pub(crate) fn writing(writer: Writer, case: Case, buf: &mut [u8], line: &mut Line) {
    let at = case.a as usize;
    let half = low_half(case.b);
    let word = low_word(case.b);
    let reply = ask(|values| match writer {
        Writer::Int16 => mvd_write_int16(buf, at, half.cast_signed(), values),
        Writer::Uint16 => mvd_write_uint16(buf, at, half, values),
        Writer::Int24 => mvd_write_int24(buf, at, word.cast_signed(), values),
        Writer::Uint24 => mvd_write_uint24(buf, at, word, values),
        Writer::Int32 => mvd_write_int32(buf, at, word.cast_signed(), values),
        Writer::Uint32 => mvd_write_uint32(buf, at, word, values),
        Writer::Float40 => mvd_write_float40_bits(buf, at, case.b, values),
        Writer::Request => mvd_encode_request(half, buf, values),
    });
    lent(line, reply, buf);
}
