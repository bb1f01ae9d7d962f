// Bus addresses of the device's internal network: the four bytes that DEST and SRC may be.
// `from_byte` refuses every other byte (6); `from_byte` of `as_byte` is the address again (proofs/Back).
#![tactic(auto)]

ghost use Rattle.std.specs.Prelude.{◌≡◌};
ghost use Rattle.error.specs.Result.{told};
ghost use Rattle.addr.specs.Address.{byte_of, address_rule};

use error::WireError;

#[derive(Clone, Copy)]
pub enum BusAddr {
    // Client application (phone, PC, a tool of ours)
    App,
    // Camera processor
    Pi,
    // Microcontroller (radar I/O, battery)
    Avr,
    // Signal processor (radar core)
    Dsp,
}

impl BusAddr {
    #[tactic(auto, unfolding(crate::specs::Address::address_rule))]
    pub fn from_byte(b: u8) -> Result<BusAddr, WireError>
        ensures { told result ≡ address_rule b }
    {
        match b {
            0x10 => Ok(BusAddr::App),
            0x12 => Ok(BusAddr::Pi),
            0x30 => Ok(BusAddr::Avr),
            0x40 => Ok(BusAddr::Dsp),
            _ => Err(WireError::UnknownBusAddr { addr: b }),
        }
    }

    pub fn as_byte(self) -> u8
        ensures { result ≡ byte_of self }
    {
        match self {
            BusAddr::App => 0x10,
            BusAddr::Pi => 0x12,
            BusAddr::Avr => 0x30,
            BusAddr::Dsp => 0x40,
        }
    }
}

// The two ways by their names in std, so that a caller may write `?` and `into`.
impl TryFrom<u8> for BusAddr {
    type Error = WireError;

    ghost try_from_gives = { λ b r. told r ≡ address_rule b };

    fn try_from(b: u8) -> Result<BusAddr, WireError> {
        BusAddr::from_byte(b)
    }
}

impl From<BusAddr> for u8 {
    ghost from_gives = { λ a b. b ≡ byte_of a };

    fn from(a: BusAddr) -> u8 {
        a.as_byte()
    }
}
