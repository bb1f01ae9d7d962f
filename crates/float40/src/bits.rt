// The 64 bits of a FLOAT40's value, made with whole numbers: one count of leading zeros, shifts, masks and sums.
// They are those of m times the float 2^(e - 23), for every e and m.
ghost use Rattle.std.specs.Prelude.{◌≡◌, ◌*◌, ◌^◌, ◌<◌, pos, ◌+ℤ◌};
ghost use Rattle.std.specs.Int.Count.{count_leading_zeros};
ghost use Rattle.std.specs.Float.{binary64};
ghost use Rattle.std.specs.Float.Ieee.{of_bits};
ghost use Rattle.integer.specs.Fields.{signed};
ghost use Rattle.float40.specs.Float40.{value40};
ghost use Rattle.float40.specs.Private.{number_of, to_lead};

// A mantissa as sign and magnitude. Both zeros are the number 0.
#[derive(Clone, Copy)]
pub(crate) struct Mantissa {
    is_negative: bool,
    size: u32,
}

impl Mantissa {
    pub(crate) fn of_number(m: i32) -> Mantissa
        ensures { number_of result ≡ m }
    {
        Mantissa {
            is_negative: m < 0,
            size: m.unsigned_abs(),
        }
    }

    // The same of an INT24's 24 bits.
    pub(crate) fn of_bits(bits: u32) -> Mantissa
        requires { bits < 2 ^ 24 }
        ensures { number_of result ≡ signed 24 bits }
    {
        if bits & 0x80_0000 == 0 {
            Mantissa {
                is_negative: false,
                size: bits,
            }
        } else {
            Mantissa {
                is_negative: true,
                size: 0x100_0000 - bits,
            }
        }
    }

    // The float of the exponent e and this mantissa.
    pub(crate) fn value(self, e: i16) -> f64
        ensures { result ≡ value40 e (number_of self) }
    {
        f64::from_bits(self.value_bits(e))
    }

    // The leading one, at bit 52, adds 1 to the exponent's field, so `field` is one less: e - 23 with the bias 1023 and the leading
    // one's place, 31 - zeros, less 1. Below 0 the value is subnormal and counts 2^-1074, or is a zero where the power is below that;
    // past 2045 it is 2^1024 or more.
    fn value_bits(self, e: i16) -> u64
        ensures { of_bits binary64 result ≡ value40 e (number_of self) }
    {
        let size = self.size;
        if size == 0 {
            return 0;
        }
        let sign = (self.is_negative as u64) << 63;
        let zeros = size.leading_zeros();
        let field = raised(e, 1030 - zeros);
        if 0 <= field && field <= 2045 {
            return sign + ((field as u64) << 52) + normalised(size, zeros);
        }
        if e < -1051 {
            return sign;
        }
        if field < 0 {
            return sign + ((size as u64) << raised(e, 1051));
        }
        sign + 0x7FF0_0000_0000_0000
    }
}

// e and some more: 32 bits have room.
fn raised(e: i16, by: u32) -> i32
    requires { by < 2048 }
    ensures { result ≡ e +ℤ pos by }
{
    e as i32 + by as i32
}

// The magnitude moved up until its leading one is bit 52.
fn normalised(size: u32, zeros: u32) -> u64
    requires { (0 < size) × (zeros ≡ count_leading_zeros 32 size) }
    ensures { result ≡ size * 2 ^ to_lead size }
{
    (size as u64) << (21 + zeros)
}
