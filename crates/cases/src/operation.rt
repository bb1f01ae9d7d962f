// The operations of docs/CASES.md, each by its number there.
// Those that read a field, those that write one, those of frames, those that fill two lists, and the other messages.

// Its number is an option and no `TryFrom`: `or` goes on to the next kind, and what is wrong with a line is told by the caller.
#[derive(Clone, Copy)]
pub(crate) enum Operation {
    Read(Reader),
    Write(Writer),
    Frames(FrameCall),
    Records(RecordCall),
    Messages(MessageCall),
}

impl Operation {
    pub(crate) fn numbered(number: u8) -> Option<Operation> {
        Reader::numbered(number)
            .map(Operation::Read)
            .or(Writer::numbered(number).map(Operation::Write))
            .or(FrameCall::numbered(number).map(Operation::Frames))
            .or(RecordCall::numbered(number).map(Operation::Records))
            .or(MessageCall::numbered(number).map(Operation::Messages))
    }
}

#[derive(Clone, Copy)]
pub(crate) enum Reader {
    Int16,
    Uint16,
    Int24,
    Uint24,
    Int32,
    Uint32,
    Float40,
    Int24Scaled,
    Int16Scaled,
}

impl Reader {
    fn numbered(number: u8) -> Option<Reader> {
        match number {
            0x01 => Some(Reader::Int16),
            0x02 => Some(Reader::Uint16),
            0x03 => Some(Reader::Int24),
            0x04 => Some(Reader::Uint24),
            0x05 => Some(Reader::Int32),
            0x06 => Some(Reader::Uint32),
            0x07 => Some(Reader::Float40),
            0x08 => Some(Reader::Int24Scaled),
            0x09 => Some(Reader::Int16Scaled),
            _ => None,
        }
    }
}

#[derive(Clone, Copy)]
pub(crate) enum Writer {
    Int16,
    Uint16,
    Int24,
    Uint24,
    Int32,
    Uint32,
    Float40,
    Request,
}

impl Writer {
    fn numbered(number: u8) -> Option<Writer> {
        match number {
            0x11 => Some(Writer::Int16),
            0x12 => Some(Writer::Uint16),
            0x13 => Some(Writer::Int24),
            0x14 => Some(Writer::Uint24),
            0x15 => Some(Writer::Int32),
            0x16 => Some(Writer::Uint32),
            0x17 | 0x18 => Some(Writer::Float40),
            0x3A => Some(Writer::Request),
            _ => None,
        }
    }
}

#[derive(Clone, Copy)]
pub(crate) enum FrameCall {
    Open,
    Encode,
    Split,
    State,
    CopyPayload,
    CountedState,
}

impl FrameCall {
    fn numbered(number: u8) -> Option<FrameCall> {
        match number {
            0x20 => Some(FrameCall::Open),
            0x21 => Some(FrameCall::Encode),
            0x22 => Some(FrameCall::Split),
            0x23 => Some(FrameCall::State),
            0x24 => Some(FrameCall::CopyPayload),
            0x25 => Some(FrameCall::CountedState),
            _ => None,
        }
    }
}

#[derive(Clone, Copy)]
pub(crate) enum RecordCall {
    FlightResult,
    FlightResultV1,
    ClubResult,
    SpinResult,
    PrcPoint,
    ClubPrcPoint,
}

impl RecordCall {
    fn numbered(number: u8) -> Option<RecordCall> {
        match number {
            0x30 => Some(RecordCall::FlightResult),
            0x31 => Some(RecordCall::FlightResultV1),
            0x32 => Some(RecordCall::ClubResult),
            0x33 => Some(RecordCall::SpinResult),
            0x37 => Some(RecordCall::PrcPoint),
            0x39 => Some(RecordCall::ClubPrcPoint),
            _ => None,
        }
    }
}

#[derive(Clone, Copy)]
pub(crate) enum MessageCall {
    TrackingStatus,
    SpeedProfile,
    PrcData,
    ClubPrc,
    ShotText,
    IsModelFailure,
    IsNoRead,
    IsFailed,
    IsFailedV1,
    Field,
    BayLog,
}

impl MessageCall {
    fn numbered(number: u8) -> Option<MessageCall> {
        match number {
            0x34 => Some(MessageCall::TrackingStatus),
            0x35 => Some(MessageCall::SpeedProfile),
            0x36 => Some(MessageCall::PrcData),
            0x38 => Some(MessageCall::ClubPrc),
            0x3B => Some(MessageCall::ShotText),
            0x3C => Some(MessageCall::IsModelFailure),
            0x3D => Some(MessageCall::IsNoRead),
            0x3E => Some(MessageCall::IsFailed),
            0x3F => Some(MessageCall::IsFailedV1),
            0x40 => Some(MessageCall::Field),
            0x41 => Some(MessageCall::BayLog),
            _ => None,
        }
    }
}
