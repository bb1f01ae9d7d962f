// EC for C, the ball's points: how many a payload has, and the point of an index, its numbers in two lent arrays.
// What a call tells, and every lent place, is the rule of the function of that name; specs/Numbers says what stands where.
#![tactic(auto)]

ghost use Rattle.std.specs.Prelude.{◌≡◌};
ghost use Rattle.error.specs.Refusal.{yes, on_yes};
ghost use Rattle.points.specs.Point.{point_answer, point_source};
ghost use Rattle.prc.specs.Points.{prc_points, prc_told, prc_data, prc_point_of};
ghost use Rattle.abi.specs.Answer.{Passed};
ghost use Rattle.abi_prc.specs.Numbers.{data_numbers, prc_whole, prc_figures, prc_numbers};

use abi::{byte, tell, wide};
use layout::Decoded;
use prc::{PrcData, PrcPoint};

pub fn mvd_prc_data(
    payload: &[u8],
    sequence: &mut i16,
    points: &mut usize,
    values: &mut [u64; 3],
) -> u64
    ensures { Passed (on_yes data_numbers (prc_told (yes (prc_data payload.now)) payload.now))
        (sequence.old, points.old) values.old result (sequence.new, points.new) values.new }
{
    match PrcData::decode(payload) {
        Ok(d) => {
            *sequence = d.sequence;
            *points = d.points;
            0
        }
        Err(e) => tell(e, values),
    }
}

// Written out: the trait of listed records that `abi_flight` has would take more lines here than the call does.
pub fn mvd_prc_point(
    payload: &[u8],
    index: usize,
    whole: &mut [i32; 8],
    figures: &mut [f64; 16],
    values: &mut [u64; 3],
) -> u64
    ensures { Passed (on_yes (λ _. prc_numbers (prc_point_of (point_source 4 60 (prc_points payload.now) payload.now index)))
        (prc_told (point_answer (prc_points payload.now) index) payload.now))
        (whole.old, figures.old) values.old result (whole.new, figures.new) values.new }
{
    let Decoded { result, record } = PrcData::point(payload, index);
    match result {
        Ok(()) => {
            *whole = prc_whole(record);
            *figures = prc_figures(record);
            0
        }
        Err(e) => tell(e, values),
    }
}

#[tactic(auto, using(abi::proofs::Widened::widened, layout::proofs::Held::held))]
fn prc_whole(p: PrcPoint) -> [i32; 8]
    ensures { result ≡ prc_whole p }
{
    [
        wide(p.index),
        wide(p.peak),
        p.snr,
        wide(p.buf_idx),
        byte(p.flags),
        p.time,
        p.sync_idx,
        p.sync_buf,
    ]
}

fn prc_figures(p: PrcPoint) -> [f64; 16]
    ensures { result ≡ prc_figures p }
{
    let [a, b, c, d, e, f] = p.pk;
    [
        p.n, p.az, p.el, p.vel, p.dist, p.az1, p.az2, p.az3, p.el1, p.el2, a, b, c, d, e, f,
    ]
}
