// An answer as C takes it: 0, or a refusal's number with its values in three lent words.
// A refusal alters no other lent place. The crates abi_* have the calls that include/movaleduft.h lists, and movaleduft exports them.
#![tactic(auto)]

ghost use Rattle.std.specs.Prelude.{◌≡◌, pos};
ghost use Rattle.error.specs.Refusal.{number_of, values_of};
ghost use Rattle.error.specs.Result.{told};
ghost use Rattle.abi.specs.Answer.{flag_of, three, Passed};

use error::WireError;

// A refusal's number; its values fill the three words, 0 where it has fewer.
pub fn tell(e: WireError, values: &mut [u64; 3]) -> u64
    ensures { (result ≡ number_of e) × (values.new ≡ three (values_of e)) }
{
    *values = [e.value(0) as u64, e.value(1) as u64, e.value(2) as u64];
    e.number() as u64
}

// The value to its lent place; a refusal leaves the place as it was.
#[tactic(auto, unfolding(crate::specs::Answer::code_of, crate::specs::Answer::value_or, crate::specs::Answer::values_in))]
pub fn put<T: Copy>(r: Result<T, WireError>, value: &mut T, values: &mut [u64; 3]) -> u64
    ensures { Passed (told r) value.old values.old result value.new values.new }
{
    match r {
        Ok(v) => {
            *value = v;
            0
        }
        Err(e) => tell(e, values),
    }
}

// An answer that has no value.
pub fn unit(r: Result<(), WireError>, values: &mut [u64; 3]) -> u64
    ensures { Passed (told r) tt values.old result tt values.new }
{
    put(r, &mut (), values)
}

// 1 for yes.
pub fn flag(b: bool) -> u8
    ensures { result ≡ flag_of b }
{
    u8::from(b)
}

// An i16 and a byte among the numbers of 32 bits: two, since a clause knows the one as an integer and the other as a natural number.
pub fn wide(n: i16) -> i32
    ensures { result ≡ n }
{
    i32::from(n)
}

pub fn byte(n: u8) -> i32
    ensures { result ≡ pos n }
{
    i32::from(n)
}
