// A case: a line of hex, the operation (1 byte), two numbers of eight bytes, and bytes. docs/CASES.md has its meaning, operation by operation.
// What is wrong with a line is found before it is asked, so that no line gets another question's answer.
use crate::operation::{FrameCall, MessageCall, Operation};

// What is wrong with a line.
#[derive(Clone, Copy)]
pub(crate) enum Fault {
    Long,
    Cut,
    Length,
    Digit,
    Operation,
    Room,
}

impl Fault {
    pub(crate) fn text(self) -> &'static [u8] {
        match self {
            Fault::Long => b"has more than 4096 bytes",
            Fault::Cut => b"has no line feed at its end",
            Fault::Length => {
                b"not a case: 34 hex digits, then two for each byte; of operation 25 at least 40 bytes"
            }
            Fault::Digit => b"not a case: a character is no hex digit",
            Fault::Operation => b"not a case: there is no such operation",
            Fault::Room => b"the buffer that it asks for has more than 1024 bytes, or 64 samples",
        }
    }
}

// A line's operation and numbers; its bytes are the digits from the 34th on.
#[derive(Clone, Copy)]
pub(crate) struct Case {
    pub(crate) operation: Operation,
    pub(crate) a: u64,
    pub(crate) b: u64,
}

impl Case {
    // The case of a line, or the first thing that is wrong with it.
    pub(crate) fn read(hex: &[u8]) -> Result<Case, Fault> {
        if hex.len() < 34 || hex.len() % 2 == 1 {
            return Err(Fault::Length);
        }
        if !hex.iter().all(|glyph| glyph.is_ascii_hexdigit()) {
            return Err(Fault::Digit);
        }
        let operation = Operation::numbered(byte(&hex[..2])).ok_or(Fault::Operation)?;
        if let Operation::Frames(FrameCall::CountedState) = operation {
            if hex.len() < 114 {
                return Err(Fault::Length);
            }
        }
        let case = Case {
            operation,
            a: number(&hex[2..18]),
            b: number(&hex[18..34]),
        };
        if case.is_lent() {
            Ok(case)
        } else {
            Err(Fault::Room)
        }
    }

    // Whether the buffer that it wants lent is one that this program has.
    fn is_lent(self) -> bool {
        match self.operation {
            Operation::Frames(FrameCall::Split | FrameCall::CopyPayload) => self.a <= 1024,
            Operation::Frames(FrameCall::State | FrameCall::CountedState) => self.b >> 8 <= 1024,
            Operation::Frames(FrameCall::Encode) => self.b <= 1024,
            Operation::Messages(MessageCall::BayLog) => self.b <= 1024,
            Operation::Messages(MessageCall::SpeedProfile) => self.a <= 64,
            _ => true,
        }
    }
}

// The bytes of a line at the front of a buffer, and how many.
pub(crate) fn bytes(hex: &[u8], out: &mut [u8]) -> usize {
    let pairs = hex.get(34..).unwrap_or(&[]).chunks_exact(2);
    let count = pairs.len();
    for (place, pair) in out.iter_mut().zip(pairs) {
        *place = byte(pair);
    }
    count
}

fn byte(hex: &[u8]) -> u8 {
    low_byte(number(hex))
}

fn number(hex: &[u8]) -> u64 {
    hex.iter()
        .fold(0, |n, &glyph| n << 4 | u64::from(digit(glyph)))
}

fn digit(glyph: u8) -> u32 {
    char::from(glyph).to_digit(16).unwrap_or(0)
}

// A number's low bits.
pub(crate) fn low_byte(n: u64) -> u8 {
    (n & 0xFF) as u8
}

pub(crate) fn low_half(n: u64) -> u16 {
    (n & 0xFFFF) as u16
}

pub(crate) fn low_word(n: u64) -> u32 {
    (n & 0xFFFF_FFFF) as u32
}

// A float by its bits; a NaN is any NaN. `from_bits` asks that they are no NaN's, hence the test.
pub(crate) fn float(bits: u64) -> f64 {
    if 0x7FF0_0000_0000_0000 < bits % 0x8000_0000_0000_0000 {
        0.0 / 0.0
    } else {
        f64::from_bits(bits)
    }
}
