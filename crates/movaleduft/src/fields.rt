// Fields for C: the readers and the writers at a place, and a message's field by its number.
// Each call is the library's of that name, and promises what that one does.

ghost use Rattle.std.specs.Prelude.{◌≡◌};
ghost use Rattle.abi.specs.Answer.{Passed};
ghost use Rattle.abi_numbers.specs.Question.{asked_of};
ghost use Rattle.float40.specs.Float40.{float40_at};
ghost use Rattle.float40_write.specs.Writing.{bytes40};
ghost use Rattle.integer.specs.Fields.{be_at, int_at, reading, scaled_by};
ghost use Rattle.integer_write.specs.Writing.{bytes_of, int_bytes, writing, written};

#[unsafe(no_mangle)]
pub extern "C" fn mvd_read_int16(
    data: &[u8],
    offset: usize,
    value: &mut i16,
    values: &mut [u64; 3],
) -> u64
    ensures { Passed (reading 1 2 (int_at 2) «data».now offset)
        value.old values.old result value.new values.new }
{
    abi_codec::reads::mvd_read_int16(data, offset, value, values)
}

#[unsafe(no_mangle)]
pub extern "C" fn mvd_read_uint16(
    data: &[u8],
    offset: usize,
    value: &mut u16,
    values: &mut [u64; 3],
) -> u64
    ensures { Passed (reading 2 2 (be_at 2) «data».now offset)
        value.old values.old result value.new values.new }
{
    abi_codec::reads::mvd_read_uint16(data, offset, value, values)
}

#[unsafe(no_mangle)]
pub extern "C" fn mvd_read_int24(
    data: &[u8],
    offset: usize,
    value: &mut i32,
    values: &mut [u64; 3],
) -> u64
    ensures { Passed (reading 3 3 (int_at 3) «data».now offset)
        value.old values.old result value.new values.new }
{
    abi_codec::reads::mvd_read_int24(data, offset, value, values)
}

#[unsafe(no_mangle)]
pub extern "C" fn mvd_read_uint24(
    data: &[u8],
    offset: usize,
    value: &mut u32,
    values: &mut [u64; 3],
) -> u64
    ensures { Passed (reading 4 3 (be_at 3) «data».now offset)
        value.old values.old result value.new values.new }
{
    abi_codec::reads::mvd_read_uint24(data, offset, value, values)
}

#[unsafe(no_mangle)]
pub extern "C" fn mvd_read_int32(
    data: &[u8],
    offset: usize,
    value: &mut i32,
    values: &mut [u64; 3],
) -> u64
    ensures { Passed (reading 5 4 (int_at 4) «data».now offset)
        value.old values.old result value.new values.new }
{
    abi_codec::reads::mvd_read_int32(data, offset, value, values)
}

#[unsafe(no_mangle)]
pub extern "C" fn mvd_read_uint32(
    data: &[u8],
    offset: usize,
    value: &mut u32,
    values: &mut [u64; 3],
) -> u64
    ensures { Passed (reading 6 4 (be_at 4) «data».now offset)
        value.old values.old result value.new values.new }
{
    abi_codec::reads::mvd_read_uint32(data, offset, value, values)
}

#[unsafe(no_mangle)]
pub extern "C" fn mvd_read_int24_scaled(
    data: &[u8],
    offset: usize,
    scale: f64,
    value: &mut f64,
    values: &mut [u64; 3],
) -> u64
    ensures { Passed (reading 3 3 (λ s at. scaled_by scale (int_at 3 s at)) «data».now offset)
        value.old values.old result value.new values.new }
{
    abi_codec::reads::mvd_read_int24_scaled(data, offset, scale, value, values)
}

#[unsafe(no_mangle)]
pub extern "C" fn mvd_read_int16_scaled(
    data: &[u8],
    offset: usize,
    scale: f64,
    value: &mut f64,
    values: &mut [u64; 3],
) -> u64
    ensures { Passed (reading 1 2 (λ s at. scaled_by scale (int_at 2 s at)) «data».now offset)
        value.old values.old result value.new values.new }
{
    abi_codec::reads::mvd_read_int16_scaled(data, offset, scale, value, values)
}

#[unsafe(no_mangle)]
pub extern "C" fn mvd_read_float40(
    data: &[u8],
    offset: usize,
    value: &mut f64,
    values: &mut [u64; 3],
) -> u64
    ensures { Passed (reading 7 5 float40_at «data».now offset)
        value.old values.old result value.new values.new }
{
    abi_codec::reads::mvd_read_float40(data, offset, value, values)
}

#[unsafe(no_mangle)]
pub extern "C" fn mvd_write_int16(
    buf: &mut [u8],
    offset: usize,
    val: i16,
    values: &mut [u64; 3],
) -> u64
    ensures passed { Passed (writing (int_bytes 2 val) buf.old offset) tt values.old result tt values.new }
    ensures buf_after { buf.new ≡ written (int_bytes 2 val) buf.old offset }
{
    abi_codec::writes::mvd_write_int16(buf, offset, val, values)
}

#[unsafe(no_mangle)]
pub extern "C" fn mvd_write_uint16(
    buf: &mut [u8],
    offset: usize,
    val: u16,
    values: &mut [u64; 3],
) -> u64
    ensures passed { Passed (writing (bytes_of 2 val) buf.old offset) tt values.old result tt values.new }
    ensures buf_after { buf.new ≡ written (bytes_of 2 val) buf.old offset }
{
    abi_codec::writes::mvd_write_uint16(buf, offset, val, values)
}

#[unsafe(no_mangle)]
pub extern "C" fn mvd_write_int24(
    buf: &mut [u8],
    offset: usize,
    val: i32,
    values: &mut [u64; 3],
) -> u64
    ensures passed { Passed (writing (int_bytes 3 val) buf.old offset) tt values.old result tt values.new }
    ensures buf_after { buf.new ≡ written (int_bytes 3 val) buf.old offset }
{
    abi_codec::writes::mvd_write_int24(buf, offset, val, values)
}

#[unsafe(no_mangle)]
pub extern "C" fn mvd_write_uint24(
    buf: &mut [u8],
    offset: usize,
    val: u32,
    values: &mut [u64; 3],
) -> u64
    ensures passed { Passed (writing (bytes_of 3 val) buf.old offset) tt values.old result tt values.new }
    ensures buf_after { buf.new ≡ written (bytes_of 3 val) buf.old offset }
{
    abi_codec::writes::mvd_write_uint24(buf, offset, val, values)
}

#[unsafe(no_mangle)]
pub extern "C" fn mvd_write_int32(
    buf: &mut [u8],
    offset: usize,
    val: i32,
    values: &mut [u64; 3],
) -> u64
    ensures passed { Passed (writing (int_bytes 4 val) buf.old offset) tt values.old result tt values.new }
    ensures buf_after { buf.new ≡ written (int_bytes 4 val) buf.old offset }
{
    abi_codec::writes::mvd_write_int32(buf, offset, val, values)
}

#[unsafe(no_mangle)]
pub extern "C" fn mvd_write_uint32(
    buf: &mut [u8],
    offset: usize,
    val: u32,
    values: &mut [u64; 3],
) -> u64
    ensures passed { Passed (writing (bytes_of 4 val) buf.old offset) tt values.old result tt values.new }
    ensures buf_after { buf.new ≡ written (bytes_of 4 val) buf.old offset }
{
    abi_codec::writes::mvd_write_uint32(buf, offset, val, values)
}

#[unsafe(no_mangle)]
pub extern "C" fn mvd_write_float40_bits(
    buf: &mut [u8],
    offset: usize,
    bits: u64,
    values: &mut [u64; 3],
) -> u64
    ensures passed { Passed (writing (bytes40 bits) buf.old offset) tt values.old result tt values.new }
    ensures buf_after { buf.new ≡ written (bytes40 bits) buf.old offset }
{
    abi_codec::writes::mvd_write_float40_bits(buf, offset, bits, values)
}

#[unsafe(no_mangle)]
pub extern "C" fn mvd_field(
    message: u8,
    payload: &[u8],
    number: usize,
    count: &mut i32,
    figure: &mut f64,
    is_figure: &mut u8,
    values: &mut [u64; 3],
) -> u64
    ensures { Passed (asked_of message payload.now number (count.old, figure.old, is_figure.old))
        (count.old, figure.old, is_figure.old) values.old
        result (count.new, figure.new, is_figure.new) values.new }
{
    abi_numbers::mvd_field(message, payload, number, count, figure, is_figure, values)
}
