// Shot result messages, under the names of shot.rs, and the field by number.
// Each is proved in the crate that it comes from; nothing is added here.
#![tactic(auto)]

pub use club_prc::{ClubPrc, ClubPrcPoint};
pub use failure::LeagueRule;
pub use flight::{ClubResult, FlightResult, FlightResultV1};
pub use layout::Decoded;
pub use numbers::{Field, Message, field_at};
pub use prc::{PrcData, PrcPoint};
pub use shot_text::ShotText;
pub use speed_profile::SpeedProfile;
pub use spin::{AntennaElement, SpinResult};
pub use tracking::TrackingStatus;
