// Integer fields read at a place: the field, or refusal 7 with its kind where it does not fit.
// A scaled read divides once.
#![tactic(auto)]

ghost use Rattle.std.specs.Prelude.{◌≡◌};
ghost use Rattle.error.specs.Result.{told};
ghost use Rattle.integer.specs.Fields.{be_at, int_at, reading, scaled_by};
ghost use Rattle.integer_read.specs.Private.{kind_of, width_of};

use error::WireError;
use integer::{int16_at, int24_at, int32_at, need_at, uint16_at, uint24_at, uint32_at, within};

// Each reader is its test and its field: one that took the field's reader as a closure would have to ask that it may be called,
// and be no shorter.
pub fn read_int16(data: &[u8], offset: usize) -> Result<i16, WireError>
    ensures { told result ≡ reading 1 2 (int_at 2) «data».now offset }
{
    check_len(data, offset, Field::Int16)?;
    Ok(int16_at(data, offset))
}

pub fn read_uint16(data: &[u8], offset: usize) -> Result<u16, WireError>
    ensures { told result ≡ reading 2 2 (be_at 2) «data».now offset }
{
    check_len(data, offset, Field::Uint16)?;
    Ok(uint16_at(data, offset))
}

pub fn read_int24(data: &[u8], offset: usize) -> Result<i32, WireError>
    ensures { told result ≡ reading 3 3 (int_at 3) «data».now offset }
{
    check_len(data, offset, Field::Int24)?;
    Ok(int24_at(data, offset))
}

pub fn read_uint24(data: &[u8], offset: usize) -> Result<u32, WireError>
    ensures { told result ≡ reading 4 3 (be_at 3) «data».now offset }
{
    check_len(data, offset, Field::Uint24)?;
    Ok(uint24_at(data, offset))
}

pub fn read_int32(data: &[u8], offset: usize) -> Result<i32, WireError>
    ensures { told result ≡ reading 5 4 (int_at 4) «data».now offset }
{
    check_len(data, offset, Field::Int32)?;
    Ok(int32_at(data, offset))
}

pub fn read_uint32(data: &[u8], offset: usize) -> Result<u32, WireError>
    ensures { told result ≡ reading 6 4 (be_at 4) «data».now offset }
{
    check_len(data, offset, Field::Uint32)?;
    Ok(uint32_at(data, offset))
}

pub fn read_int24_scaled(data: &[u8], offset: usize, scale: f64) -> Result<f64, WireError>
    ensures { told result ≡ reading 3 3 (λ s at. scaled_by scale (int_at 3 s at)) «data».now offset }
{
    Ok(read_int24(data, offset)? as f64 / scale)
}

pub fn read_int16_scaled(data: &[u8], offset: usize, scale: f64) -> Result<f64, WireError>
    ensures { told result ≡ reading 1 2 (λ s at. scaled_by scale (int_at 2 s at)) «data».now offset }
{
    Ok(read_int16(data, offset)? as f64 / scale)
}

// The integer fields, each with the kind that refusal 7 names.
#[derive(Clone, Copy)]
enum Field {
    Int16 = 1,
    Uint16 = 2,
    Int24 = 3,
    Uint24 = 4,
    Int32 = 5,
    Uint32 = 6,
}

impl Field {
    fn kind(self) -> u8
        ensures { result ≡ kind_of self }
    {
        self as u8
    }

    fn width(self) -> usize
        ensures { result ≡ width_of self }
    {
        match self {
            Field::Int16 | Field::Uint16 => 2,
            Field::Int24 | Field::Uint24 => 3,
            Field::Int32 | Field::Uint32 => 4,
        }
    }
}

// Refusal 7 where the field does not fit.
fn check_len(data: &[u8], offset: usize, field: Field) -> Result<(), WireError>
    ensures { told result ≡ reading (kind_of field) (width_of field) (λ s at. tt) «data».now offset }
{
    let width = field.width();
    if within(data.len(), offset, width) {
        return Ok(());
    }
    let need = need_at(offset, width);
    let got = data.len();
    Err(WireError::payload_too_short(field.kind(), need, got))
}
