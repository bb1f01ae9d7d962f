// Text in a buffer of its own: a line of the list as it is read, and the line of an answer as it grows.
// What there is no room for is left out.
use std::fmt;
use std::fmt::{Display, Write};

const DIGITS: [u8; 16] = *b"0123456789abcdef";

// As a line of `report`, with no contract, and for `write!`.
#[derive(Drop)]
pub(crate) struct Text<const N: usize> {
    bytes: [u8; N],
    len: usize,
}

impl<const N: usize> Text<N> {
    pub(crate) fn new() -> Text<N> {
        Text {
            bytes: [0; N],
            len: 0,
        }
    }

    pub(crate) fn clear(&mut self) {
        self.len = 0;
    }

    pub(crate) fn is_full(&self) -> bool {
        N <= self.len
    }

    pub(crate) fn push(&mut self, byte: u8) {
        if self.len < N {
            self.bytes[self.len] = byte;
            self.len += 1;
        }
    }

    // Two digits a byte. Through `write!` a byte took some 300 instructions, and most of a run; and the length is a number of its own
    // meanwhile, as a length that is stored for each digit is waited for at the next.
    pub(crate) fn push_hex(&mut self, bytes: &[u8]) {
        let mut len = self.len;
        for &byte in bytes {
            if len < N.saturating_sub(1) {
                self.bytes[len] = DIGITS[usize::from(byte / 16)];
                self.bytes[len + 1] = DIGITS[usize::from(byte % 16)];
                len += 2;
            }
        }
        self.len = len;
    }

    // What a value prints.
    pub(crate) fn put<D: Display + Drop>(&mut self, value: D) {
        let _ = self.write(value);
    }

    pub(crate) fn bytes(&self) -> &[u8] {
        &self.bytes[..self.len.min(N)]
    }
}

impl<const N: usize> Write for Text<N> {
    fn write_str(&mut self, text: &str) -> fmt::Result {
        for &byte in text.as_bytes() {
            self.push(byte);
        }
        Ok(())
    }
}
