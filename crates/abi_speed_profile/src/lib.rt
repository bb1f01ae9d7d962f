// D9 for C: the call is its decoder, the speeds at the front of a lent buffer and the record's other numbers in lent places.
// What it tells, and every lent place, is that decoder's rule; specs/Numbers says what stands where.
#![tactic(auto)]

ghost use Rattle.std.specs.Prelude.{◌≡◌, length};
ghost use Rattle.error.specs.Refusal.{on_yes};
ghost use Rattle.speed_profile.specs.Profile.{speed_rule, speeds_after};
ghost use Rattle.abi.specs.Answer.{Passed};
ghost use Rattle.abi_speed_profile.specs.Numbers.{profile_whole, profile_numbers};

use abi::{byte, tell};
use speed_profile::SpeedProfile;

pub fn mvd_speed_profile(
    payload: &[u8],
    speeds: &mut [f64],
    whole: &mut [i32; 4],
    samples: &mut usize,
    time_interval: &mut f64,
    values: &mut [u64; 3],
) -> u64
    ensures passed { Passed (on_yes profile_numbers (speed_rule payload.now (length speeds.old)))
        (whole.old, samples.old, time_interval.old) values.old result
        (whole.new, samples.new, time_interval.new) values.new }
    ensures speeds_after { speeds.new ≡ speeds_after payload.now speeds.old }
{
    match SpeedProfile::decode(payload, speeds) {
        Ok(r) => {
            *whole = profile_whole(r);
            *samples = r.speeds;
            *time_interval = r.time_interval;
            0
        }
        Err(e) => tell(e, values),
    }
}

fn profile_whole(r: SpeedProfile) -> [i32; 4]
    ensures { result ≡ profile_whole r }
{
    [
        byte(r.flags),
        byte(r.num_pre),
        byte(r.num_post),
        r.scale_factor,
    ]
}
