// D4, E8 and ED by number: their shapes, the list of their divisors, and a field asked for by its number.
// The list keeps document 01's rule (proofs/Divisors); the decoders and `field_at` divide by it.
#![tactic(auto)]

ghost use Rattle.std.specs.Prelude.{◌≡◌, ◌<◌};
ghost use Rattle.error.specs.Result.{told};
ghost use Rattle.integer.specs.Fields.{scaled_by};
ghost use Rattle.numbers.specs.Numbers.{shape_of, message_rule, count_of, whole_of, rule_of, rule_code, entry_of, float, scale_rule, scale_of};
ghost use Rattle.numbers.specs.Asked.{told_field, field_rule};

mod table;

pub use crate::table::{D4, DIVISORS, E8, ED};
use error::WireError;
use integer::int24_at;

#[derive(Clone, Copy)]
pub enum Message {
    // Type D4
    FlightResult,
    // Type E8
    FlightResultV1,
    // Type ED
    ClubResult,
}

// The message whose type is a byte; any other byte is refused, as a field that no message has.
impl TryFrom<u8> for Message {
    type Error = WireError;

    ghost try_from_gives = { λ kind r. told r ≡ message_rule kind };

    #[tactic(auto, unfolding(crate::specs::Numbers::message_rule))]
    fn try_from(kind: u8) -> Result<Message, WireError> {
        match kind {
            0xD4 => Ok(Message::FlightResult),
            0xE8 => Ok(Message::FlightResultV1),
            0xED => Ok(Message::ClubResult),
            _ => Err(WireError::NoField {
                number: kind as usize,
            }),
        }
    }
}

impl Message {
    pub fn shape(self) -> Shape
        ensures { result ≡ shape_of self }
    {
        match self {
            Message::FlightResult => D4,
            Message::FlightResultV1 => E8,
            Message::ClubResult => ED,
        }
    }

    // A number as it stands. Past the last it is what stands there, and a byte past the end counts as 0.
    pub fn whole(self, payload: &[u8], number: usize) -> i32
        ensures { result ≡ whole_of self payload.now number }
    {
        let steps = number.saturating_mul(3);
        int24_at(payload, steps.saturating_add(self.shape().base))
    }

    // The list's entry for a number; past the last it is the scale's.
    pub fn divisor(self, number: usize) -> u32
        ensures { result ≡ rule_code (rule_of self number) }
    {
        if number < self.shape().count {
            self.entry(number)
        } else {
            1
        }
    }

    // The same two of a number that the message has: `field_at` has tested it, and is a tenth slower where it is tested again.
    fn inside(self, payload: &[u8], number: usize) -> i32
        requires { number < count_of self }
        ensures { result ≡ whole_of self payload.now number }
    {
        int24_at(payload, self.shape().base + 3 * number)
    }

    fn entry(self, number: usize) -> u32
        requires { number < count_of self }
        ensures { result ≡ rule_code (rule_of self number) }
    {
        DIVISORS[self.shape().first + number]
    }

    // A payload's own scale, as it divides.
    pub fn scale(self, payload: &[u8]) -> f64
        ensures { result ≡ scale_of self payload.now }
    {
        scale(self, self.whole(payload, self.shape().scale))
    }
}

// What differs between the messages.
#[derive(Clone, Copy)]
pub struct Shape {
    // Type byte
    pub kind: u8,
    // Least length
    pub least: usize,
    // Place of number 0
    pub base: usize,
    // How many numbers
    pub count: usize,
    // Number of the polynomial scale factor
    pub scale: usize,
    // Where the divisors start in the list
    pub first: usize,
}

// Document 01's form: a count, a figure, or one of the two refusals that asking can meet (docs/DECISIONS.md, the nine named forms).
#[derive(Clone, Copy)]
pub enum Field {
    Count(i32),
    Figure(f64),
    PayloadTooShort { kind: u8, need: usize, got: usize },
    NoField { number: usize },
}

// A polynomial scale factor as it divides: 0 becomes 1, in E8 anything below 1.
pub fn scale(message: Message, poly_scale: i32) -> f64
    ensures { result ≡ float (scale_rule message poly_scale) }
{
    let divisor = match message {
        Message::FlightResultV1 => poly_scale.max(1),
        Message::FlightResult | Message::ClubResult if poly_scale == 0 => 1,
        Message::FlightResult | Message::ClubResult => poly_scale,
    };
    divisor as f64
}

// A number divided by its entry in the list, where 1 stands for the scale.
pub fn figure(number: i32, divisor: u32, scale: f64) -> f64
    ensures { result ≡ scaled_by (entry_of divisor scale) number }
{
    if divisor == 1 {
        number as f64 / scale
    } else {
        number as f64 / divisor as f64
    }
}

// The field of a message by its number.
pub fn field_at(message: Message, payload: &[u8], number: usize) -> Field
    ensures { told_field result ≡ field_rule message payload.now number }
{
    let shape = message.shape();
    let got = payload.len();
    if got < shape.least {
        return Field::PayloadTooShort {
            kind: shape.kind,
            need: shape.least,
            got,
        };
    }
    if shape.count <= number {
        return Field::NoField { number };
    }
    let value = message.inside(payload, number);
    let divisor = message.entry(number);
    if divisor == 0 {
        return Field::Count(value);
    }
    Field::Figure(figure(value, divisor, message.scale(payload)))
}
