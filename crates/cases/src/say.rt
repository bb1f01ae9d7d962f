// The parts of an answer line: whole numbers in decimal, floats by their bits, bytes in hex.
// A line is the refusal's number or 0, then whole numbers (a refusal's values), floats, and the bytes behind a colon.
use crate::text::Text;
use std::fmt;
use std::fmt::Display;

// No line of a case within the program's limits is longer.
pub(crate) type Line = Text<65536>;

// What a call refused: the number, and the three words that it was lent.
#[derive(Clone, Copy)]
pub(crate) struct Refusal {
    number: u64,
    values: [u64; 3],
}

// As many values as that refusal has.
impl Display for Refusal {
    fn fmt<W: fmt::Write>(&self, f: &mut fmt::Formatter<W>) -> fmt::Result {
        write!(f, "{}", self.number)?;
        let count = abi_error::mvd_value_count(self.number);
        for value in self.values.iter().take(count) {
            write!(f, " {value}")?;
        }
        Ok(())
    }
}

// A float, shown by its bits: every NaN as one.
#[derive(Clone, Copy)]
pub(crate) struct Float(pub(crate) f64);

impl Display for Float {
    fn fmt<W: fmt::Write>(&self, f: &mut fmt::Formatter<W>) -> fmt::Result {
        write!(f, "{:016x}", float40_write::bits_of(self.0))
    }
}

// A call that is lent the three words for a refusal's values.
pub(crate) fn ask<F: FnOnce(&mut [u64; 3]) -> u64>(call: F) -> Result<(), Refusal>
    requires { F.IsAlwaysCallable call }
{
    let mut values = [0; 3];
    let number = call(&mut values);
    if number == 0 {
        Ok(())
    } else {
        Err(Refusal { number, values })
    }
}

// A call that is lent a place for its value too.
pub(crate) fn read<T: Copy, F: FnOnce(&mut T, &mut [u64; 3]) -> u64>(
    zero: T,
    call: F,
) -> Result<T, Refusal>
    requires { F.IsAlwaysCallable call }
{
    let mut value = zero;
    ask(|values| call(&mut value, values))?;
    Ok(value)
}

// A call that is lent two places.
pub(crate) fn read_two<A: Copy, B: Copy, F: FnOnce(&mut A, &mut B, &mut [u64; 3]) -> u64>(
    zeros: (A, B),
    call: F,
) -> Result<(A, B), Refusal>
    requires { F.IsAlwaysCallable call }
{
    let (mut a, mut b) = zeros;
    ask(|values| call(&mut a, &mut b, values))?;
    Ok((a, b))
}

// ---- whole lines

// One value.
pub(crate) fn one<D: Display + Drop>(line: &mut Line, value: D) {
    line.put(format_args!("0 {value} :\n"));
}

// The lent bytes, refused or not.
pub(crate) fn lent(line: &mut Line, reply: Result<(), Refusal>, buf: &[u8]) {
    match reply {
        Ok(()) => line.put("0"),
        Err(refusal) => line.put(refusal),
    }
    bytes(line, buf);
}

// The lent bytes, and how many of them were filled.
pub(crate) fn filled(line: &mut Line, reply: Result<usize, Refusal>, buf: &[u8]) {
    match reply {
        Ok(len) => line.put(format_args!("0 {len}")),
        Err(refusal) => line.put(refusal),
    }
    bytes(line, buf);
}

// ---- the parts of a line

// Each item as `shown` shows it.
pub(crate) fn each<T: Copy, D: Display + Drop, F: Fn(T) -> D>(
    line: &mut Line,
    items: &[T],
    shown: F,
)
    requires { F.IsAlwaysCallable shown }
{
    for &item in items {
        line.put(format_args!(" {}", shown(item)));
    }
}

// The end of a line without bytes.
pub(crate) fn end(line: &mut Line) {
    line.put(" :\n");
}

// The bytes, and the line's end.
pub(crate) fn bytes(line: &mut Line, bytes: &[u8]) {
    line.put(" :");
    line.push_hex(bytes);
    line.put("\n");
}
