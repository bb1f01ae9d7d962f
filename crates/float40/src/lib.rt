// FLOAT40, the wire's 40-bit float, read: exponent e (INT16), then mantissa m (INT24), worth m * 2^(e - 23).
// Too short is refused with 7.
#![tactic(auto)]

mod bits;

ghost use Rattle.std.specs.Prelude.{◌≡◌};
ghost use Rattle.error.specs.Result.{told};
ghost use Rattle.integer.specs.Fields.{reading};
ghost use Rattle.float40.specs.Float40.{value40, float40_at};

use crate::bits::Mantissa;
use error::WireError;

pub fn read_float40(data: &[u8], offset: usize) -> Result<f64, WireError>
    ensures { told result ≡ reading 7 5 float40_at «data».now offset }
{
    let need = integer::need_at(offset, 5);
    let got = data.len();
    if got < need {
        return Err(WireError::payload_too_short(7, need, got));
    }
    let end = offset + 5;
    Ok(front(&data[offset..end]))
}

// The FLOAT40 at a place, where a byte past the end counts as 0: for callers that tested the length.
pub fn float40_at(data: &[u8], offset: usize) -> f64
    ensures { result ≡ float40_at «data».now offset }
{
    match data.get(offset..) {
        Some(part) => front(part),
        None => 0.0,
    }
}

// The value of an exponent and a mantissa, as bits that whole numbers make: the wall controller has no float unit.
pub fn float40_of(e: i16, m: i32) -> f64
    ensures { result ≡ value40 e m }
{
    Mantissa::of_number(m).value(e)
}

// The FLOAT40 at the front: of a part, so that the compiler drops the tests of a part that is long enough. The mantissa's own bits
// give sign and magnitude, with no sign to extend first.
fn front(data: &[u8]) -> f64
    ensures { result ≡ float40_at «data».now 0 }
{
    let e = integer::int16_at(data, 0);
    let m = integer::uint24_at(data, 2);
    Mantissa::of_bits(m).value(e)
}
