// Shot result messages D4, E8 and ED: each decoded into one record of whole numbers and floats.
// A field asked for by number is the record's field of that name (proofs/ByNumber).
// D4's and E8's `decode` and `read` are always inlined: a caller makes the numbers that it asks for, and beside a refusal none.
#![tactic(auto)]

mod club_result;
mod figures;
mod flight_result;
mod flight_result_v1;

pub use crate::club_result::ClubResult;
pub use crate::flight_result::FlightResult;
pub use crate::flight_result_v1::FlightResultV1;
