// The integer field at a place, big-endian and two's complement, for callers that tested the length.
// A byte past the end counts as 0; the test of a place is in `place`.
#![tactic(auto)]

mod place;

ghost use Rattle.std.specs.Prelude.{◌≡◌, ℕ, ◌+◌, ◌<◌, get_or};
ghost use Rattle.integer.specs.Fields.{be_at, int_at};

pub use crate::place::{need_at, within};
use std::array;

// The byte at a place. Data and offset stand apart, as the Rust has them, here and in all that reads or writes a field.
pub fn byte_at(data: &[u8], offset: usize) -> u8
    ensures { result ≡ get_or «data».now offset 0 }
{
    data.get(offset).copied().unwrap_or(0)
}

pub fn int16_at(data: &[u8], offset: usize) -> i16
    ensures { result ≡ int_at 2 «data».now offset }
{
    i16::from_be_bytes(bytes_at(data, offset))
}

pub fn uint16_at(data: &[u8], offset: usize) -> u16
    ensures { result ≡ be_at 2 «data».now offset }
{
    u16::from_be_bytes(bytes_at(data, offset))
}

// The three bytes moved up to the sign bit of 32, and down again. A sum of three products was 5 to 29 % slower in five decoders,
// and a tenth faster in E9, whose fields lie side by side.
pub fn int24_at(data: &[u8], offset: usize) -> i32
    ensures { result ≡ int_at 3 «data».now offset }
{
    let [high, middle, low] = bytes_at::<3>(data, offset);
    i32::from_be_bytes([high, middle, low, 0]) >> 8
}

pub fn uint24_at(data: &[u8], offset: usize) -> u32
    ensures { result ≡ be_at 3 «data».now offset }
{
    let [high, middle, low] = bytes_at::<3>(data, offset);
    u32::from_be_bytes([0, high, middle, low])
}

pub fn int32_at(data: &[u8], offset: usize) -> i32
    ensures { result ≡ int_at 4 «data».now offset }
{
    i32::from_be_bytes(bytes_at(data, offset))
}

pub fn uint32_at(data: &[u8], offset: usize) -> u32
    ensures { result ≡ be_at 4 «data».now offset }
{
    u32::from_be_bytes(bytes_at(data, offset))
}

// The K bytes at a place. Where the field is there no byte of it is tested.
fn bytes_at<const K: usize>(data: &[u8], offset: usize) -> [u8; K]
    ensures { (k : ℕ) → k < K → get_or result k 0 ≡ get_or «data».now (offset + k) 0 }
{
    if within(data.len(), offset, K) {
        return *data[offset..offset + K].first_chunk().unwrap();
    }
    array::from_fn(|k| byte_at(data, offset.saturating_add(k)))
}
