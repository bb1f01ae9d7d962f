// FLOAT40 written: a float's 64 bits taken apart into exponent and mantissa, five bytes at a place.
// No room is refused with 8; what was written reads back as proofs/Back says.
#![tactic(auto)]

ghost use Rattle.std.specs.Prelude.{◌≡◌, length};
ghost use Rattle.error.specs.Result.{told};
ghost use Rattle.integer_write.specs.Writing.{writing, written};
ghost use Rattle.float40_write.specs.Writing.{exp40, man40, bytes40, bits64};

use error::WireError;

// The FLOAT40 of a float. A NaN, whose bits are not known, counts as 7FF8_0000_0000_0000.
pub fn write_float40(buf: &mut [u8], offset: usize, value: f64) -> Result<(), WireError>
    ensures { (told result ≡ writing (bytes40 (bits64 value)) buf.old offset)
        × (buf.new ≡ written (bytes40 (bits64 value)) buf.old offset) }
{
    let bits = bits_of(value);
    write_float40_bits(buf, offset, bits)
}

// The FLOAT40 of a float's 64 bits, each NaN as its own.
pub fn write_float40_bits(buf: &mut [u8], offset: usize, bits: u64) -> Result<(), WireError>
    ensures { (told result ≡ writing (bytes40 bits) buf.old offset)
        × (buf.new ≡ written (bytes40 bits) buf.old offset) }
{
    let need = integer::need_at(offset, 5);
    let got = buf.len();
    if got < need {
        return Err(WireError::NoRoom { need, got });
    }
    let end = offset + 5;
    lay(&mut buf[offset..end], bits);
    Ok(())
}

// The 64 bits of a float, every NaN as one.
pub fn bits_of(value: f64) -> u64
    ensures { result ≡ bits64 value }
{
    if value.is_nan() {
        return 0x7FF8_0000_0000_0000;
    }
    value.to_bits()
}

// The five bytes, over a part of five, which has room for both fields. Laid into the buffer: an array of five that is copied takes twice as long.
fn lay(buf: &mut [u8], bits: u64)
    requires { length buf.old ≡ 5 }
    ensures { buf.new ≡ bytes40 bits }
{
    let parts = parts_of(bits);
    let _ = integer_write::write_int16(buf, 0, parts.exponent);
    let _ = integer_write::write_int24(buf, 2, parts.mantissa);
}

// e and m.
#[derive(Drop)]
struct Parts {
    exponent: i16,
    mantissa: i32,
}

// The bits taken apart: sign, exponent field, fraction. Both zeros are 0 and 0.
fn parts_of(bits: u64) -> Parts
    ensures { (result.exponent ≡ exp40 bits) × (result.mantissa ≡ man40 bits) }
{
    if bits & 0x7FFF_FFFF_FFFF_FFFF == 0 {
        return Parts {
            exponent: 0,
            mantissa: 0,
        };
    }
    let ieee_exp = ((bits >> 52) & 0x7FF) as i16;
    let ieee_mant = bits & 0xF_FFFF_FFFF_FFFF;
    let mant_abs = (((1u64 << 52) + ieee_mant) >> 30) as i32;
    let exponent = ieee_exp - 1022;
    let mantissa = if bits >> 63 != 0 { -mant_abs } else { mant_abs };
    Parts { exponent, mantissa }
}
