// The three bytes that the frame rules give a meaning of their own: a frame's first byte, its last, and the escape.
// One place for all crates; it has no function.
#![tactic(auto)]

// The first byte of a frame.
pub const START: u8 = 0xF0;
// The last.
pub const END: u8 = 0xF1;
// The first of the two bytes that stand for an escaped one.
pub const ESC: u8 = 0xFD;
