// The writers for C: a field's bytes at a place, or refusal 8.
// A refusal keeps the buffer; a field that is written keeps the three words. Each is a call of its own, as C names them.
ghost use Rattle.std.specs.Prelude.{◌≡◌};
ghost use Rattle.integer_write.specs.Writing.{bytes_of, int_bytes, writing, written};
ghost use Rattle.float40_write.specs.Writing.{bytes40};
ghost use Rattle.abi.specs.Answer.{Passed};

use abi::unit;

pub fn mvd_write_int16(buf: &mut [u8], offset: usize, val: i16, values: &mut [u64; 3]) -> u64
    ensures passed { Passed (writing (int_bytes 2 val) buf.old offset) tt values.old result tt values.new }
    ensures buf_after { buf.new ≡ written (int_bytes 2 val) buf.old offset }
{
    unit(integer_write::write_int16(buf, offset, val), values)
}

pub fn mvd_write_uint16(buf: &mut [u8], offset: usize, val: u16, values: &mut [u64; 3]) -> u64
    ensures passed { Passed (writing (bytes_of 2 val) buf.old offset) tt values.old result tt values.new }
    ensures buf_after { buf.new ≡ written (bytes_of 2 val) buf.old offset }
{
    unit(integer_write::write_uint16(buf, offset, val), values)
}

pub fn mvd_write_int24(buf: &mut [u8], offset: usize, val: i32, values: &mut [u64; 3]) -> u64
    ensures passed { Passed (writing (int_bytes 3 val) buf.old offset) tt values.old result tt values.new }
    ensures buf_after { buf.new ≡ written (int_bytes 3 val) buf.old offset }
{
    unit(integer_write::write_int24(buf, offset, val), values)
}

pub fn mvd_write_uint24(buf: &mut [u8], offset: usize, val: u32, values: &mut [u64; 3]) -> u64
    ensures passed { Passed (writing (bytes_of 3 val) buf.old offset) tt values.old result tt values.new }
    ensures buf_after { buf.new ≡ written (bytes_of 3 val) buf.old offset }
{
    unit(integer_write::write_uint24(buf, offset, val), values)
}

pub fn mvd_write_int32(buf: &mut [u8], offset: usize, val: i32, values: &mut [u64; 3]) -> u64
    ensures passed { Passed (writing (int_bytes 4 val) buf.old offset) tt values.old result tt values.new }
    ensures buf_after { buf.new ≡ written (int_bytes 4 val) buf.old offset }
{
    unit(integer_write::write_int32(buf, offset, val), values)
}

pub fn mvd_write_uint32(buf: &mut [u8], offset: usize, val: u32, values: &mut [u64; 3]) -> u64
    ensures passed { Passed (writing (bytes_of 4 val) buf.old offset) tt values.old result tt values.new }
    ensures buf_after { buf.new ≡ written (bytes_of 4 val) buf.old offset }
{
    unit(integer_write::write_uint32(buf, offset, val), values)
}

pub fn mvd_write_float40_bits(
    buf: &mut [u8],
    offset: usize,
    bits: u64,
    values: &mut [u64; 3],
) -> u64
    ensures passed { Passed (writing (bytes40 bits) buf.old offset) tt values.old result tt values.new }
    ensures buf_after { buf.new ≡ written (bytes40 bits) buf.old offset }
{
    unit(float40_write::write_float40_bits(buf, offset, bits), values)
}
