// EF for C: the call is its decoder, the record's numbers in two lent arrays.
// What it tells, and every lent place, is that decoder's rule; specs/Numbers says what stands where.
#![tactic(auto)]

ghost use Rattle.std.specs.Prelude.{◌≡◌};
ghost use Rattle.std.proofs.lemmas.List.Edits.{sets};
ghost use Rattle.error.specs.Refusal.{on_yes};
ghost use Rattle.layout.specs.Layout.{answered, source_of};
ghost use Rattle.spin.specs.Tables.{spin_of};
ghost use Rattle.abi.specs.Answer.{Passed};
ghost use Rattle.abi_spin.specs.Numbers.{elements_whole, spin_rest, spin_whole, spin_figures, spin_numbers};

use abi::{byte, tell, wide};
use layout::Decoded;
use spin::{AntennaElement, SpinResult};

// Written out: the trait of listed records that `abi_flight` has would take more lines here than the call does.
pub fn mvd_spin_result(
    payload: &[u8],
    whole: &mut [i32; 46],
    figures: &mut [f64; 16],
    values: &mut [u64; 3],
) -> u64
    ensures { Passed (on_yes (λ _. spin_numbers (spin_of (source_of 138 payload.now))) (answered 0xEF 138 payload.now))
        (whole.old, figures.old) values.old result (whole.new, figures.new) values.new }
{
    let Decoded { result, record } = SpinResult::decode(payload);
    match result {
        Ok(()) => {
            *whole = spin_whole(record);
            *figures = spin_figures(record);
            0
        }
        Err(e) => tell(e, values),
    }
}

fn spin_whole(r: SpinResult) -> [i32; 46]
    ensures { result ≡ spin_whole r }
{
    let mut whole = [0; 46];
    whole[0] = byte(r.version);
    put(r.antenna_data, spin_rest(r), &mut whole);
    whole
}

// Spin and signal-to-noise of each antenna element, from place 1 on; then the rest, from place 31 on. One loop by index over both: two
// numbers of an element go to one place and the next, and as many follow the elements as there are.
fn put(a: [AntennaElement; 15], rest: [i32; 15], whole: &mut [i32; 46])
    ensures { whole.new ≡ sets (sets whole.old 1 (elements_whole a)) 31 rest }
{
    for i in 0..15 {
        whole[1 + i * 2] = rpm(a[i]);
        whole[2 + i * 2] = snr(a[i]);
        whole[31 + i] = rest[i];
    }
}

// What follows the elements.
fn spin_rest(r: SpinResult) -> [i32; 15]
    ensures { result ≡ spin_rest r }
{
    [
        wide(r.pm_spin_raw),
        wide(r.pm_spin_final),
        wide(r.pm_spin_confidence),
        wide(r.lift_spin),
        wide(r.spin_validate_expected),
        wide(r.spin_validate_low),
        wide(r.spin_validate_high),
        wide(r.spin_validate_scaling),
        byte(r.spin_method),
        r.spin_flags,
        wide(r.launch_spin),
        wide(r.am_spin),
        wide(r.pm_spin),
        wide(r.aod_spin),
        wide(r.pll_spin),
    ]
}

// The peaks, and the axis behind them.
fn spin_figures(r: SpinResult) -> [f64; 16]
    ensures { result ≡ spin_figures r }
{
    let mut figures = [r.spin_axis; 16];
    for (i, e) in r.antenna_data.iter().enumerate() {
        figures[i] = e.peak;
    }
    figures
}

fn rpm(e: AntennaElement) -> i32
    ensures { result ≡ e.spin_rpm }
{
    wide(e.spin_rpm)
}

fn snr(e: AntennaElement) -> i32
    ensures { result ≡ e.snr }
{
    wide(e.snr)
}
