// A payload's numbers by number: as they stand, or each divided by its entry in the list of divisors.
// Always inlined into the records: number and message are constants there, so nothing is looked up when the code runs.
ghost use Rattle.std.specs.Prelude.{◌≡◌, ◌+◌, ◌<◌, ◌≤◌};
ghost use Rattle.layout.specs.Layout.{row};
ghost use Rattle.numbers.specs.Numbers.{count_of, whole_of, rule_of};
ghost use Rattle.flight.specs.Decoding.{run};
ghost use Rattle.flight.specs.Private.{divided, figure_by};

use numbers::{Message, figure};

// A message's payload, with the scale that it asks for.
#[derive(Clone, Copy)]
pub(crate) struct Payload<'a> {
    pub message: Message,
    pub bytes: &'a [u8],
    pub scale: f64,
}

impl<'a> Payload<'a> {
    #[inline(always)]
    pub(crate) fn whole(&self, number: usize) -> i32
        requires { number < count_of self.now.message }
        ensures { result ≡ whole_of self.now.message self.now.bytes.now number }
    {
        self.message.whole(self.bytes, number)
    }

    #[inline(always)]
    pub(crate) fn figure(&self, number: usize) -> f64
        requires { number < count_of self.now.message }
        ensures { result ≡ figure_by self.now.message self.now.bytes.now self.now.scale number }
    {
        figure(self.whole(number), self.message.divisor(number), self.scale)
    }

    // N whole numbers in a row, by index: `array::from_fn` is not inlined, and number and divisor would be looked up (half as fast).
    #[inline(always)]
    pub(crate) fn wholes<const N: usize>(&self, number: usize) -> [i32; N]
        requires { number + N ≤ count_of self.now.message }
        ensures { result ≡ run N (whole_of self.now.message self.now.bytes.now) number }
    {
        let mut row = [0; N];
        for k in 0..N {
            row[k] = self.whole(number + k);
        }
        row
    }

    // N figures in a row, by index too.
    #[inline(always)]
    pub(crate) fn figures<const N: usize>(&self, number: usize) -> [f64; N]
        requires { number + N ≤ count_of self.now.message }
        ensures { result ≡ run N (figure_by self.now.message self.now.bytes.now self.now.scale) number }
    {
        let mut row = [0.0; N];
        for k in 0..N {
            row[k] = self.figure(number + k);
        }
        row
    }

    // 36 figures in a row that have one divisor, three a turn: one, two or four a turn are turned into vectors, which take longer to fill than to divide.
    // What stands there before is any number but 0.0, for which the compiler would call memset.
    pub(crate) fn coefficients(&self, number: usize) -> [f64; 36]
        requires { number + 36 ≤ count_of self.now.message }
        ensures { result ≡ row 36 (λ k. divided (rule_of self.now.message number) self.now.scale (whole_of self.now.message self.now.bytes.now (number + k))) }
    {
        let divisor = self.message.divisor(number);
        let mut figures = [1.0; 36];
        for k in 0..12 {
            figures[3 * k] = figure(self.whole(number + 3 * k), divisor, self.scale);
            figures[3 * k + 1] = figure(self.whole(number + 3 * k + 1), divisor, self.scale);
            figures[3 * k + 2] = figure(self.whole(number + 3 * k + 2), divisor, self.scale);
        }
        figures
    }
}
