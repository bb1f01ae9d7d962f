// EE for C, the club head's points: how many a payload has, the point of an index, and the request for a page of them.
// What a call tells, and every lent place, is the rule of the function of that name; specs/Numbers says what stands where.
#![tactic(auto)]

ghost use Rattle.std.specs.Prelude.{◌≡◌};
ghost use Rattle.error.specs.Refusal.{on_yes};
ghost use Rattle.integer_write.specs.Writing.{writing, written};
ghost use Rattle.points.specs.Point.{point_answer, point_source};
ghost use Rattle.club_prc.specs.Points.{club_points, club_point_of};
ghost use Rattle.club_prc.specs.Request.{request_of};
ghost use Rattle.abi.specs.Answer.{Passed};
ghost use Rattle.abi_club_prc.specs.Numbers.{club_whole, club_figures, club_numbers};

use abi::{byte, tell, unit, wide};
use club_prc::{ClubPrc, ClubPrcPoint};
use layout::Decoded;

pub fn mvd_club_prc(payload: &[u8]) -> usize
    ensures { result ≡ club_points payload.now }
{
    ClubPrc::decode(payload).points
}

// Written out: the trait of listed records that `abi_flight` has would take more lines here than the call does.
pub fn mvd_club_prc_point(
    payload: &[u8],
    index: usize,
    whole: &mut [i32; 9],
    figures: &mut [f64; 20],
    values: &mut [u64; 3],
) -> u64
    ensures { Passed (on_yes (λ _. club_numbers (club_point_of (point_source 1 76 (club_points payload.now) payload.now index)))
        (point_answer (club_points payload.now) index))
        (whole.old, figures.old) values.old result (whole.new, figures.new) values.new }
{
    let Decoded { result, record } = ClubPrc::point(payload, index);
    match result {
        Ok(()) => {
            *whole = club_whole(record);
            *figures = club_figures(record);
            0
        }
        Err(e) => tell(e, values),
    }
}

pub fn mvd_encode_request(start_index: u16, buf: &mut [u8], values: &mut [u64; 3]) -> u64
    ensures passed { Passed (writing (request_of start_index) buf.old 0) tt values.old result tt values.new }
    ensures buf_after { buf.new ≡ written (request_of start_index) buf.old 0 }
{
    unit(ClubPrc::encode_request(start_index, buf), values)
}

#[tactic(auto, using(abi::proofs::Widened::widened, layout::proofs::Held::held))]
fn club_whole(p: ClubPrcPoint) -> [i32; 9]
    ensures { result ≡ club_whole p }
{
    [
        wide(p.index),
        wide(p.buf_ofs),
        wide(p.peak),
        p.snr,
        wide(p.buf_idx),
        p.time,
        byte(p.version),
        p.f39,
        p.f42,
    ]
}

#[tactic(auto, using(layout::proofs::Spread::spread))]
fn club_figures(p: ClubPrcPoint) -> [f64; 20]
    ensures { result ≡ club_figures p }
{
    let [a, b, c, d, e, f] = p.pk;
    [
        p.n, p.az, p.el, p.vel, p.vel2, p.dist, p.f30, p.f33, p.f45, p.az1, p.az2, p.az3, p.el1,
        p.el2, a, b, c, d, e, f,
    ]
}
