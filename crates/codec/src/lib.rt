// The names of codec.rs, each from the crate that proves it.
// Integer fields are in `integer`, `integer_read` and `integer_write`, FLOAT40 in `float40` and `float40_write`; nothing is added here.
#![tactic(auto)]

pub use float40::{float40_at, float40_of, read_float40};
pub use float40_write::{write_float40, write_float40_bits};
pub use integer::{
    byte_at, int16_at, int24_at, int32_at, need_at, uint16_at, uint24_at, uint32_at, within,
};
pub use integer_read::{
    read_int16, read_int16_scaled, read_int24, read_int24_scaled, read_int32, read_uint16,
    read_uint24, read_uint32,
};
pub use integer_write::{
    write_int16, write_int24, write_int32, write_uint16, write_uint24, write_uint32,
};
