// A frame's parts: how much room is enough for their wire, before a byte of it is written, and the wire as it is put into a buffer.
// Where there is less room than enough, the need is the wire's own length, as specs/Wire defines it.
ghost use Rattle.std.specs.Prelude.{◌≡◌, ◌<◌, ◌≤◌, Some, IfSome, length, unwrap_or};
ghost use Rattle.std.proofs.lemmas.List.Edits.{sets};
ghost use Rattle.stuffing.specs.Stuff.{sum16};
ghost use Rattle.encoding.specs.Wire.{checksum_of, wire_of};
ghost use Rattle.encoding.specs.Parts.{fields_of, head_of};

use crate::placing::put_part;
use crate::putting::put_all;
use addr::BusAddr;
use marks::{END, START};
use stuffing::{checksum, tally};

// What a wire is made of.
#[derive(Drop)]
pub(crate) struct Parts<'a> {
    pub(crate) dest: BusAddr,
    pub(crate) src: BusAddr,
    pub(crate) type_id: u8,
    pub(crate) payload: &'a [u8],
}

// How much room is enough, and the checksum, if it was counted on the way.
#[derive(Clone, Copy)]
pub(crate) struct Plan {
    pub(crate) need: usize,
    pub(crate) checksum: Option<u16>,
}

impl Plan {
    // The checksum as it was counted, or else that of the bytes that were written.
    fn sum_of(self, written: &[u8]) -> u16
        ensures { result ≡ unwrap_or self.checksum (sum16 written.now) }
    {
        match self.checksum {
            Some(sum) => sum,
            None => checksum(written),
        }
    }
}

impl Parts<'_> {
    // The three bytes in front of the payload.
    fn head(&self) -> [u8; 3]
        ensures { result ≡ head_of (fields_of self.now) }
    {
        [self.dest.as_byte(), self.src.as_byte(), self.type_id]
    }

    // No wire is longer than 2n + 12 bytes, so where there is room for these nothing is counted.
    pub(crate) fn enough(&self, room: usize) -> Plan
        requires { length self.now.payload.now ≤ 65535 }
        ensures need { (length (wire_of (fields_of self.now)) ≤ result.need)
            × (room < result.need → result.need ≡ length (wire_of (fields_of self.now))) }
        ensures checksum { IfSome result.checksum (λ n. n ≡ checksum_of (fields_of self.now)) }
    {
        let most = 2 * self.payload.len() + 12;
        if room >= most {
            return Plan {
                need: most,
                checksum: None,
            };
        }
        self.measure()
    }

    // The whole wire's length, and the checksum.
    fn measure(&self) -> Plan
        requires { length self.now.payload.now ≤ 65535 }
        ensures need { result.need ≡ length (wire_of (fields_of self.now)) }
        ensures checksum { result.checksum ≡ Some (checksum_of (fields_of self.now)) }
    {
        let h = tally(&self.head());
        let p = tally(self.payload);
        let checksum = h.sum.wrapping_add(p.sum);
        let t = tally(&checksum.to_be_bytes());
        Plan {
            need: self.payload.len()
                + 7
                + usize::from(h.more)
                + usize::from(p.more)
                + usize::from(t.more),
            checksum: Some(checksum),
        }
    }

    // The head, the payload and the checksum, between the two marks; the wire's length.
    pub(crate) fn put(&self, plan: Plan, wire: &mut [u8]) -> usize
        requires { (IfSome plan.checksum (λ n. n ≡ checksum_of (fields_of self.now)))
            × (length (wire_of (fields_of self.now)) ≤ length wire.old) }
        ensures { (result ≡ length (wire_of (fields_of self.now)))
            × (wire.new ≡ sets wire.old 0 (wire_of (fields_of self.now))) }
    {
        wire[0] = START;
        let at_payload = put_part(&self.head(), wire, 1);
        let at_checksum = put_all(self.payload, wire, at_payload);
        let sum = plan.sum_of(&wire[1..at_checksum]);
        let at_end = put_part(&sum.to_be_bytes(), wire, at_checksum);
        wire[at_end] = END;
        at_end + 1
    }
}
