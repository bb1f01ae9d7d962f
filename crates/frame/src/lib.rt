// Frames of frame.rs: F0, stuffed(DEST SRC TYPE PAYLOAD CS_HI CS_LO), F1. `RawFrame::encode` writes a wire; `RawFrame::open`
// reads its header and `RawFrame::copy_payload` its payload, as specs/Rule says: what encoding wrote comes back (proofs/Round).
#![tactic(auto)]

mod copying;

ghost use Rattle.std.specs.Prelude.{◌≡◌, length};
ghost use Rattle.error.specs.Refusal.{on_yes, filled};
ghost use Rattle.error.specs.Result.{told};
ghost use Rattle.frame.specs.Wire.{fields};
ghost use Rattle.frame.specs.Rule.{encode_rule, open_rule, copy_rule};

use crate::copying::copy;
use addr::BusAddr;
use checking::{Head, check};
use error::WireError;

// A frame's header, and the length of its payload.
#[derive(Clone, Copy)]
pub struct RawFrame {
    pub dest: BusAddr,
    pub src: BusAddr,
    pub type_id: u8,
    pub len: usize,
}

impl RawFrame {
    // The wire of a frame at the buffer's front, and its length.
    pub fn encode(
        dest: BusAddr,
        src: BusAddr,
        type_id: u8,
        payload: &[u8],
        wire: &mut [u8],
    ) -> Result<usize, WireError>
        ensures reply { told result ≡ on_yes length (encode_rule (fields dest src type_id payload.now) (length wire.old)) }
        ensures bytes { wire.new
            ≡ filled (encode_rule (fields dest src type_id payload.now) (length wire.old)) wire.old }
    {
        encoding::encode(dest, src, type_id, payload, wire)
    }

    // The header of a wire and its payload's length. Nothing is copied, so room is not asked for: it is never refused with 8.
    pub fn open(wire: &[u8]) -> Result<RawFrame, WireError>
        ensures { told result ≡ open_rule wire.now }
    {
        let head = check(wire)?;
        Ok(RawFrame {
            dest: head.dest,
            src: head.src,
            type_id: head.type_id,
            len: head.len,
        })
    }

    // The payload of a wire at the buffer's front, and its length; the wire is checked as `open` checks it, and then the room.
    #[tactic(auto, using(crate::proofs::Parsed::told_room, crate::proofs::Parsed::told_cramped))]
    pub fn copy_payload(wire: &[u8], buf: &mut [u8]) -> Result<usize, WireError>
        ensures reply { told result ≡ on_yes length (copy_rule wire.now (length buf.old)) }
        ensures bytes { buf.new ≡ filled (copy_rule wire.now (length buf.old)) buf.old }
    {
        let Head { len, from, to, .. } = check(wire)?;
        let room = buf.len();
        if room < len {
            return Err(WireError::NoRoom {
                need: len,
                got: room,
            });
        }
        copy(&wire[from..to], &mut buf[..len]);
        Ok(len)
    }
}
