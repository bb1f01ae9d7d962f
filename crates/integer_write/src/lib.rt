// Integer fields written at a place: the value's low bytes, big-endian and two's complement.
// No room is refused with 8; a refusal writes nothing, and every other byte is kept.
#![tactic(auto)]

ghost use Rattle.std.specs.Prelude.{◌≡◌};
ghost use Rattle.error.specs.Result.{told};
ghost use Rattle.integer_write.specs.Writing.{bytes_of, unsigned, int_bytes, writing, written};

use error::WireError;
use integer::{need_at, within};

pub fn write_int16(buf: &mut [u8], offset: usize, val: i16) -> Result<(), WireError>
    ensures { (told result ≡ writing (int_bytes 2 val) buf.old offset)
        × (buf.new ≡ written (int_bytes 2 val) buf.old offset) }
{
    write_uint16(buf, offset, val.cast_unsigned())
}

pub fn write_uint16(buf: &mut [u8], offset: usize, val: u16) -> Result<(), WireError>
    ensures { (told result ≡ writing (bytes_of 2 val) buf.old offset)
        × (buf.new ≡ written (bytes_of 2 val) buf.old offset) }
{
    write_bytes(buf, offset, &u16::to_be_bytes(val))
}

pub fn write_int24(buf: &mut [u8], offset: usize, val: i32) -> Result<(), WireError>
    ensures { (told result ≡ writing (int_bytes 3 val) buf.old offset)
        × (buf.new ≡ written (int_bytes 3 val) buf.old offset) }
{
    write_uint24(buf, offset, bits_of(val))
}

pub fn write_uint24(buf: &mut [u8], offset: usize, val: u32) -> Result<(), WireError>
    ensures { (told result ≡ writing (bytes_of 3 val) buf.old offset)
        × (buf.new ≡ written (bytes_of 3 val) buf.old offset) }
{
    write_bytes(buf, offset, &u32::to_be_bytes(val)[1..])
}

pub fn write_int32(buf: &mut [u8], offset: usize, val: i32) -> Result<(), WireError>
    ensures { (told result ≡ writing (int_bytes 4 val) buf.old offset)
        × (buf.new ≡ written (int_bytes 4 val) buf.old offset) }
{
    write_uint32(buf, offset, bits_of(val))
}

pub fn write_uint32(buf: &mut [u8], offset: usize, val: u32) -> Result<(), WireError>
    ensures { (told result ≡ writing (bytes_of 4 val) buf.old offset)
        × (buf.new ≡ written (bytes_of 4 val) buf.old offset) }
{
    write_bytes(buf, offset, &u32::to_be_bytes(val))
}

// The bytes at a place, or refusal 8.
pub fn write_bytes(buf: &mut [u8], offset: usize, bytes: &[u8]) -> Result<(), WireError>
    ensures { (told result ≡ writing bytes.now buf.old offset)
        × (buf.new ≡ written bytes.now buf.old offset) }
{
    if !within(buf.len(), offset, bytes.len()) {
        let need = need_at(offset, bytes.len());
        let got = buf.len();
        return Err(WireError::NoRoom { need, got });
    }
    buf[offset..offset + bytes.len()].copy_from_slice(bytes);
    Ok(())
}

// The 32 bits of val: the Rust's `as u32`.
pub fn bits_of(val: i32) -> u32
    ensures { result ≡ unsigned 32 val }
{
    val.cast_unsigned()
}
