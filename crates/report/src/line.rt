// A line while it is written, from its end to its front: its bytes so far, of which no line has more than 128.
// A contract sees the bytes alone: each part is put in front of them, and says how many more they may be.
ghost use Rattle.std.specs.Prelude.{◌≡◌, ℕ, ◌+◌, ◌^◌, ◌<◌, ◌≤◌, List, [], ◌∷◌, ◌++◌, length, drop};
ghost use Rattle.error.specs.Result.{told};
ghost use Rattle.report.specs.Text.{hex_digit, decimal_of, hex_of};
ghost use Rattle.report.specs.Line.{Lined};

use error::WireError;
use itoa::write_digits;
use std::marker::Model;

// Bytes and where they begin, in a struct of its own: a line has fixed memory, and its contracts see the list of its bytes.
// A number's last digit is known first: written from the end, no digit is counted, and none is copied before the line is put.
#[derive(Drop)]
pub(crate) struct Line {
    bytes: [u8; 128],
    from: usize,
}

impl Model for Line {
    ghost Value = { List ℕ };

    ghost view = { λ l. drop l.from l.bytes };

    ghost invariant = { λ l. l.from ≤ 128 };
}

impl Line {
    // The line feed at the end of each line.
    #[inline(always)]
    pub(crate) fn new() -> Line
        ensures { result ≡ 0x0A ∷ [] }
    {
        Line {
            bytes: [b'\n'; 128],
            from: 127,
        }
    }

    // Some bytes.
    #[inline(always)]
    pub(crate) fn text(&mut self, text: &[u8])
        requires { length self.old + length text.now ≤ 128 }
        ensures { self.new ≡ text.now ++ self.old }
    {
        let to = self.from;
        let at = to - text.len();
        self.bytes[at..to].copy_from_slice(text);
        self.from = at;
    }

    // A number's digits.
    #[inline]
    #[tactic(auto, using(crate::proofs::Decimal::as_written, crate::proofs::Decimal::three_digits))]
    pub(crate) fn decimal(&mut self, n: u64)
        requires { length self.old + 20 ≤ 128 }
        ensures bytes { self.new ≡ decimal_of n ++ self.old }
        ensures few { length self.new ≤ length self.old + 20 }
        ensures small { n < 2 ^ 8 → length self.new ≤ length self.old + 3 }
    {
        self.from = write_digits(n, &mut self.bytes, self.from);
    }

    // A space and a number's digits.
    #[inline]
    pub(crate) fn number(&mut self, n: u64)
        requires { length self.old + 21 ≤ 128 }
        ensures bytes { self.new ≡ 0x20 ∷ decimal_of n ++ self.old }
        ensures few { length self.new ≤ length self.old + 21 }
        ensures small { n < 2 ^ 8 → length self.new ≤ length self.old + 4 }
    {
        self.decimal(n);
        self.text(b" ");
    }

    // A space and a byte's two hex digits.
    #[inline]
    #[tactic(auto, unfolding(crate::specs::Text::hex_of))]
    pub(crate) fn byte(&mut self, b: u8)
        requires { length self.old + 3 ≤ 128 }
        ensures bytes { self.new ≡ 0x20 ∷ hex_of b ++ self.old }
        ensures few { length self.new ≡ length self.old + 3 }
    {
        self.text(&[b' ', hex_digit(b / 16), hex_digit(b % 16)]);
    }

    // The line at the front of a lent buffer. One that does not fit is refused, and nothing is written.
    #[inline]
    pub(crate) fn put(self, out: &mut [u8]) -> Result<usize, WireError>
        ensures { Lined self out.old (told result) out.new }
    {
        let line = &self.bytes[self.from..];
        let need = line.len();
        let got = out.len();
        if got < need {
            return Err(WireError::NoRoom { need, got });
        }
        out[..need].copy_from_slice(line);
        Ok(need)
    }
}

// `0` to `9`, then `A` to `F`.
fn hex_digit(d: u8) -> u8
    requires { d < 16 }
    ensures { result ≡ hex_digit d }
{
    if d < 10 { b'0' + d } else { b'A' + (d - 10) }
}
