// Byte stuffing and the checksum of frame.rs: F0, F1, FD, FA are written as FD and a code; the sum of bytes wraps at 65,536.
// Stuffing and sums of joined strings are laws in proofs/. The loops over whole strings have no branch.
#![tactic(auto)]

mod coding;
mod summing;

pub use crate::coding::{escape_code, select, unescape};
pub use crate::summing::{Stuffed, checksum, tally, wide};
