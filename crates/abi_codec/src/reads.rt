// The readers for C: a field's value in its lent place, or refusal 7 with the field's kind.
// A refusal keeps the place; a value keeps the three words. Each is a call of its own, as C names them.
ghost use Rattle.integer.specs.Fields.{be_at, int_at, reading, scaled_by};
ghost use Rattle.float40.specs.Float40.{float40_at};
ghost use Rattle.abi.specs.Answer.{Passed};

use abi::put;

pub fn mvd_read_int16(data: &[u8], offset: usize, value: &mut i16, values: &mut [u64; 3]) -> u64
    ensures { Passed (reading 1 2 (int_at 2) «data».now offset)
        value.old values.old result value.new values.new }
{
    put(integer_read::read_int16(data, offset), value, values)
}

pub fn mvd_read_uint16(data: &[u8], offset: usize, value: &mut u16, values: &mut [u64; 3]) -> u64
    ensures { Passed (reading 2 2 (be_at 2) «data».now offset)
        value.old values.old result value.new values.new }
{
    put(integer_read::read_uint16(data, offset), value, values)
}

pub fn mvd_read_int24(data: &[u8], offset: usize, value: &mut i32, values: &mut [u64; 3]) -> u64
    ensures { Passed (reading 3 3 (int_at 3) «data».now offset)
        value.old values.old result value.new values.new }
{
    put(integer_read::read_int24(data, offset), value, values)
}

pub fn mvd_read_uint24(data: &[u8], offset: usize, value: &mut u32, values: &mut [u64; 3]) -> u64
    ensures { Passed (reading 4 3 (be_at 3) «data».now offset)
        value.old values.old result value.new values.new }
{
    put(integer_read::read_uint24(data, offset), value, values)
}

pub fn mvd_read_int32(data: &[u8], offset: usize, value: &mut i32, values: &mut [u64; 3]) -> u64
    ensures { Passed (reading 5 4 (int_at 4) «data».now offset)
        value.old values.old result value.new values.new }
{
    put(integer_read::read_int32(data, offset), value, values)
}

pub fn mvd_read_uint32(data: &[u8], offset: usize, value: &mut u32, values: &mut [u64; 3]) -> u64
    ensures { Passed (reading 6 4 (be_at 4) «data».now offset)
        value.old values.old result value.new values.new }
{
    put(integer_read::read_uint32(data, offset), value, values)
}

pub fn mvd_read_int24_scaled(
    data: &[u8],
    offset: usize,
    scale: f64,
    value: &mut f64,
    values: &mut [u64; 3],
) -> u64
    ensures { Passed (reading 3 3 (λ s at. scaled_by scale (int_at 3 s at)) «data».now offset)
        value.old values.old result value.new values.new }
{
    put(
        integer_read::read_int24_scaled(data, offset, scale),
        value,
        values,
    )
}

pub fn mvd_read_int16_scaled(
    data: &[u8],
    offset: usize,
    scale: f64,
    value: &mut f64,
    values: &mut [u64; 3],
) -> u64
    ensures { Passed (reading 1 2 (λ s at. scaled_by scale (int_at 2 s at)) «data».now offset)
        value.old values.old result value.new values.new }
{
    put(
        integer_read::read_int16_scaled(data, offset, scale),
        value,
        values,
    )
}

pub fn mvd_read_float40(data: &[u8], offset: usize, value: &mut f64, values: &mut [u64; 3]) -> u64
    ensures { Passed (reading 7 5 float40_at «data».now offset)
        value.old values.old result value.new values.new }
{
    put(float40::read_float40(data, offset), value, values)
}
