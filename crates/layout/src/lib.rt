// What decoders share: the record beside its reply, and scaled fields at a place, where a byte past the end counts as 0.
// A scaled read divides once.
#![tactic(auto)]

ghost use Rattle.std.specs.Prelude.{◌≡◌, ℕ, List};
ghost use Rattle.error.specs.Result.{told};
ghost use Rattle.integer.specs.Fields.{int_at, scaled_by};
ghost use Rattle.layout.specs.Layout.{answered, record_of};

use error::WireError;

// The reply, and the record beside it: beside a refusal every number of the record is zero, which document 01 asks, and which a
// `Result` with the record in it could not say.
#[derive(Drop)]
pub struct Decoded<T> {
    pub result: Result<(), WireError>,
    pub record: T,
}

// A message read into a record of a fixed least length: of such a payload its record is `filled`, of a shorter one `nothing`.
pub trait Record: Default {
    ghost KIND: { ℕ };

    ghost LEAST: { ℕ };

    ghost filled: { List ℕ → Self };

    ghost nothing: { Self };

    // the kind that a refusal names
    const KIND: u8;

    // how many bytes the record is read from
    const LEAST: usize;

    // what the bytes fill, of a shorter payload too
    fn read(payload: &[u8]) -> Self
        ensures { result ≡ filled payload.now };

    // the default record is the one beside a refusal
    ghost default_is_nothing: { (r : Self) → Self.is_default r → r ≡ nothing };
}

// The reply and the record of a payload, for each kind of record.
// Always inlined: a caller that only tells the refusal then makes no record beside it.
#[inline(always)]
pub fn decode<R: Record>(payload: &[u8]) -> Decoded<R>
    ensures result_value { told result.result ≡ answered R.KIND R.LEAST payload.now }
    ensures record_value { result.«record» ≡ record_of R.LEAST R.filled R.nothing payload.now }
{
    let got = payload.len();
    if got < R::LEAST {
        return Decoded {
            result: Err(WireError::payload_too_short(R::KIND, R::LEAST, got)),
            record: R::default(),
        };
    }
    Decoded {
        result: Ok(()),
        record: R::read(payload),
    }
}

// One function a width: each is a call and a division, and a width as a parameter would say no more.
pub fn int16_scaled_at(data: &[u8], offset: usize, scale: f64) -> f64
    ensures { result ≡ scaled_by scale (int_at 2 «data».now offset) }
{
    integer::int16_at(data, offset) as f64 / scale
}

pub fn int24_scaled_at(data: &[u8], offset: usize, scale: f64) -> f64
    ensures { result ≡ scaled_by scale (int_at 3 «data».now offset) }
{
    integer::int24_at(data, offset) as f64 / scale
}
