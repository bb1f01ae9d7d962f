// Frames for C: an address is its byte, and a frame's header four words.
// What a call tells, and every lent place, is the rule of the function of that name; a refusal alters none of them but `values`.
#![tactic(auto)]

ghost use Rattle.std.specs.Prelude.{◌≡◌, length};
ghost use Rattle.error.specs.Refusal.{on_yes, filled};
ghost use Rattle.error.specs.Result.{told};
ghost use Rattle.frame.specs.Rule.{open_rule, copy_rule};
ghost use Rattle.abi.specs.Answer.{Passed};
ghost use Rattle.abi_frame.specs.Frames.{words_of, encoded_of};

use abi::put;
use addr::BusAddr;
use error::WireError;
use frame::RawFrame;

pub fn mvd_open(wire: &[u8], header: &mut [u64; 4], values: &mut [u64; 3]) -> u64
    ensures { Passed (on_yes words_of (open_rule wire.now))
        header.old values.old result header.new values.new }
{
    put(RawFrame::open(wire).map(words_of), header, values)
}

pub fn mvd_copy_payload(wire: &[u8], buf: &mut [u8], len: &mut usize, values: &mut [u64; 3]) -> u64
    ensures reply { Passed (on_yes length (copy_rule wire.now (length buf.old)))
        len.old values.old result len.new values.new }
    ensures bytes { buf.new ≡ filled (copy_rule wire.now (length buf.old)) buf.old }
{
    put(RawFrame::copy_payload(wire, buf), len, values)
}

pub fn mvd_encode(
    dest: u8,
    src: u8,
    type_id: u8,
    payload: &[u8],
    wire: &mut [u8],
    len: &mut usize,
    values: &mut [u64; 3],
) -> u64
    ensures reply { Passed (on_yes length (encoded_of dest src type_id payload.now (length wire.old)))
        len.old values.old result len.new values.new }
    ensures bytes { wire.new
        ≡ filled (encoded_of dest src type_id payload.now (length wire.old)) wire.old }
{
    put(encoded(dest, src, type_id, payload, wire), len, values)
}

// A header as four words.
fn words_of(f: RawFrame) -> [u64; 4]
    ensures { result ≡ words_of f }
{
    [
        f.dest.as_byte() as u64,
        f.src.as_byte() as u64,
        f.type_id as u64,
        f.len as u64,
    ]
}

// The addresses are tested before the frame is encoded.
fn encoded(
    dest: u8,
    src: u8,
    type_id: u8,
    payload: &[u8],
    wire: &mut [u8],
) -> Result<usize, WireError>
    ensures reply { told result ≡ on_yes length (encoded_of dest src type_id payload.now (length wire.old)) }
    ensures bytes { wire.new
        ≡ filled (encoded_of dest src type_id payload.now (length wire.old)) wire.old }
{
    let dest = BusAddr::from_byte(dest)?;
    let src = BusAddr::from_byte(src)?;
    RawFrame::encode(dest, src, type_id, payload, wire)
}
