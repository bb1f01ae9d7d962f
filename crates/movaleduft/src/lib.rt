// The exported library: the calls that include/movaleduft.h declares, for C and C++.
// Each is the call of its name in a crate abi_*, and promises what that one does; C knows them by name, so none can be left out.
#![tactic(auto)]

ghost use Rattle.abi_error.specs.ValueCount.{ValueCount};

pub mod fields;
pub mod frames;
pub mod messages;
pub mod shots;

#[unsafe(no_mangle)]
pub extern "C" fn mvd_value_count(refusal: u64) -> usize
    ensures { ValueCount refusal result }
{
    abi_error::mvd_value_count(refusal)
}
