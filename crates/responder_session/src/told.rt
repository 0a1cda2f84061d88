use secured_record::RecordFault;

/// The effect of a record that a session accepted.
#[derive(Clone, Copy, Debug, PartialEq, Eq)]
pub enum RspAct {
    /// A request was answered; this is its code.
    Answered(u8),
    /// Application data was received.
    Data,
    /// A request was refused with the error code of this number (DSP0274, "Error code and error data").
    Refused(u8),
}

/// The outcome of a record at an `RspSession`.
#[derive(Clone, Copy, Debug, PartialEq, Eq)]
pub enum RspTold {
    /// The session accepted it.
    Moved(RspAct),
    /// It repeats the last accepted record: its response is sent again, and nothing changed.
    Same,
    /// It did not open, and nothing changed.
    Unopened(RecordFault),
}
