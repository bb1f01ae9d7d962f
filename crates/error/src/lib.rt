// Errors of the wire protocol: document 01's eleven refusals and the later ones, each with its number and its values.
// Every number and value is the table's; number and values together decide the refusal (proofs/Decides).
#![tactic(auto)]

ghost use Rattle.std.specs.Prelude.{◌≡◌, ◌++◌, ◌-◌, length, get_or, replicate};
ghost use Rattle.error.specs.declared.WireError.TheVariants.{PayloadTooShort};
ghost use Rattle.error.specs.Refusal.{number_of, values_of};

// A kind is a number and no enum: whoever reads a payload names its own kind, and a narrower type would ask more of him.
#[derive(Clone, Copy, Debug, PartialEq, Eq)]
pub enum WireError {
    FrameTooShort { len: usize },
    MissingStart { got: u8 },
    MissingEnd,
    InvalidEscape { code: u8, offset: usize },
    ChecksumMismatch { expected: u16, computed: u16 },
    UnknownBusAddr { addr: u8 },
    PayloadTooShort { kind: u8, need: usize, got: usize },
    NoRoom { need: usize, got: usize },
    BadState,
    PayloadTooLong { len: usize },
    NoField { number: usize },
    CutEscape { offset: usize },
    CounterFull,
}

impl WireError {
    // A payload of kind `kind` that has `got` bytes and needs `need`.
    pub fn payload_too_short(kind: u8, need: usize, got: usize) -> WireError
        ensures { result ≡ PayloadTooShort kind need got }
    {
        WireError::PayloadTooShort { kind, need, got }
    }

    // The refusal's number, 1 to 13.
    pub fn number(self) -> u8
        ensures { result ≡ number_of self }
    {
        match self {
            WireError::FrameTooShort { .. } => 1,
            WireError::MissingStart { .. } => 2,
            WireError::MissingEnd => 3,
            WireError::InvalidEscape { .. } => 4,
            WireError::ChecksumMismatch { .. } => 5,
            WireError::UnknownBusAddr { .. } => 6,
            WireError::PayloadTooShort { .. } => 7,
            WireError::NoRoom { .. } => 8,
            WireError::BadState => 9,
            WireError::PayloadTooLong { .. } => 10,
            WireError::NoField { .. } => 11,
            WireError::CutEscape { .. } => 12,
            WireError::CounterFull => 13,
        }
    }

    // How many values it has, 0 to 3.
    pub fn count(self) -> usize
        ensures { result ≡ length (values_of self) }
    {
        match self {
            WireError::MissingEnd | WireError::BadState | WireError::CounterFull => 0,
            WireError::InvalidEscape { .. } => 2,
            WireError::ChecksumMismatch { .. } | WireError::NoRoom { .. } => 2,
            WireError::PayloadTooShort { .. } => 3,
            _ => 1,
        }
    }

    // The value at an index; 0 past the last.
    pub fn value(self, i: usize) -> usize
        ensures { result ≡ get_or (values_of self) i 0 }
    {
        self.values().get(i).copied().unwrap_or(0)
    }

    // The values, and zeros behind them, which `value` answers past the last.
    fn values(self) -> [usize; 3]
        ensures { result ≡ values_of self ++ replicate (3 - length (values_of self)) 0 }
    {
        match self {
            WireError::FrameTooShort { len } => [len, 0, 0],
            WireError::MissingStart { got } => [got as usize, 0, 0],
            WireError::MissingEnd => [0, 0, 0],
            WireError::InvalidEscape { code, offset } => [code as usize, offset, 0],
            WireError::ChecksumMismatch { expected, computed } => {
                [expected as usize, computed as usize, 0]
            }
            WireError::UnknownBusAddr { addr } => [addr as usize, 0, 0],
            WireError::PayloadTooShort { kind, need, got } => [kind as usize, need, got],
            WireError::NoRoom { need, got } => [need, got, 0],
            WireError::BadState => [0, 0, 0],
            WireError::PayloadTooLong { len } => [len, 0, 0],
            WireError::NoField { number } => [number, 0, 0],
            WireError::CutEscape { offset } => [offset, 0, 0],
            WireError::CounterFull => [0, 0, 0],
        }
    }
}
