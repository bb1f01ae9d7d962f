// A field by number, for C: which message is its type byte.
// What the call tells, and every lent place, is the rule of `numbers::field_at`.
#![tactic(auto)]

ghost use Rattle.abi.specs.Answer.{Passed};
ghost use Rattle.abi_numbers.specs.Question.{field_of, asked_of};

use abi::tell;
use error::WireError;
use numbers::{Field, Message};

#[tactic(auto, unfolding(crate::specs::Question::asked_of))]
pub fn mvd_field(
    message: u8,
    payload: &[u8],
    number: usize,
    count: &mut i32,
    figure: &mut f64,
    is_figure: &mut u8,
    values: &mut [u64; 3],
) -> u64
    ensures { Passed (asked_of message payload.now number (count.old, figure.old, is_figure.old))
        (count.old, figure.old, is_figure.old) values.old
        result (count.new, figure.new, is_figure.new) values.new }
{
    match Message::try_from(message) {
        Ok(asked) => field(asked, payload, number, count, figure, is_figure, values),
        Err(e) => tell(e, values),
    }
}

// The field of a message by its number, in the place of its kind.
fn field(
    message: Message,
    payload: &[u8],
    number: usize,
    count: &mut i32,
    figure: &mut f64,
    is_figure: &mut u8,
    values: &mut [u64; 3],
) -> u64
    ensures { Passed (field_of message payload.now number (count.old, figure.old, is_figure.old))
        (count.old, figure.old, is_figure.old) values.old
        result (count.new, figure.new, is_figure.new) values.new }
{
    match numbers::field_at(message, payload, number) {
        Field::Count(z) => {
            *count = z;
            *is_figure = 0;
            0
        }
        Field::Figure(x) => {
            *figure = x;
            *is_figure = 1;
            0
        }
        Field::PayloadTooShort { kind, need, got } => {
            tell(WireError::payload_too_short(kind, need, got), values)
        }
        Field::NoField { number } => tell(WireError::NoField { number }, values),
    }
}
