// The request for a page of EE's points, 77 bytes.
// It stands at the front of a lent buffer, the rest of which is kept; where it does not fit, nothing is written.
ghost use Rattle.std.specs.Prelude.{◌≡◌};
ghost use Rattle.error.specs.Result.{told};
ghost use Rattle.integer_write.specs.Writing.{writing, written};
ghost use Rattle.club_prc.specs.Request.{request_of};

use crate::club_prc::ClubPrc;
use error::WireError;

impl ClubPrc {
    // Asks for the points from `start_index` on, three a page: 77 bytes at the front of a buffer, the rest of which is kept.
    pub fn encode_request(start_index: u16, buf: &mut [u8]) -> Result<(), WireError>
        ensures result_value { told result ≡ writing (request_of start_index) buf.old 0 }
        ensures buf_after { buf.new ≡ written (request_of start_index) buf.old 0 }
    {
        let got = buf.len();
        if got < 77 {
            return Err(WireError::NoRoom { need: 77, got });
        }
        // the bytes of a point
        buf[0] = 0x4C;
        integer_write::write_uint16(buf, 1, start_index)?;
        buf[3..77].fill(0);
        Ok(())
    }
}
