// Encoding of frame.rs: the wire of a frame, written at the front of a lent buffer.
// `encode` answers and writes what specs/Encode says; the checksum runs over the stuffed bytes, where they were written.
#![tactic(auto)]

mod parts;
mod placing;
mod putting;
mod ranking;

ghost use Rattle.std.specs.Prelude.{◌≡◌, length};
ghost use Rattle.error.specs.Refusal.{on_yes, filled};
ghost use Rattle.error.specs.Result.{told};
ghost use Rattle.encoding.specs.Wire.{fields};
ghost use Rattle.encoding.specs.Encode.{encode_rule};

use crate::parts::Parts;
use addr::BusAddr;
use error::WireError;

// The wire of a frame at the buffer's front, and its length.
#[tactic(auto, unfolding(crate::specs::Encode::encode_rule))]
pub fn encode(
    dest: BusAddr,
    src: BusAddr,
    type_id: u8,
    payload: &[u8],
    wire: &mut [u8],
) -> Result<usize, WireError>
    ensures reply { told result ≡ on_yes length (encode_rule (fields dest src type_id payload.now) (length wire.old)) }
    ensures bytes { wire.new
        ≡ filled (encode_rule (fields dest src type_id payload.now) (length wire.old)) wire.old }
{
    let n = payload.len();
    if n > 65535 {
        return Err(WireError::PayloadTooLong { len: n });
    }
    let parts = Parts {
        dest,
        src,
        type_id,
        payload,
    };
    let room = wire.len();
    let plan = parts.enough(room);
    let need = plan.need;
    if room < need {
        return Err(WireError::NoRoom { need, got: room });
    }
    Ok(parts.put(plan, wire))
}
