use spdm_grammar::{Event, ReqIgnored};

/// The outcome of a complete message body, as far as no session key is needed.
#[derive(Clone, Copy, Debug, PartialEq, Eq)]
pub enum BodyOutcome {
    /// It is ignored, and nothing changed.
    Ignored(ReqIgnored),
    /// It is an ERROR of this code in the clear, while a record is outstanding. It is not protected, and nothing
    /// changed.
    Warned(u8),
    /// It was accepted. This is reported, and nothing is outstanding any more.
    Rests(Event),
    /// It was accepted, and refuses PSK_EXCHANGE: the session with this ReqSessionID is removed. This is reported, and
    /// nothing is outstanding any more.
    Closes { id: u16, told: Event },
    /// It was accepted. A further clear message was sent, with this tag.
    Sends { tag: u8 },
    /// It brings the PSK_EXCHANGE_RSP that the session with this ReqSessionID awaits, whose verify data the session
    /// compares. That is written, and nothing changed.
    Exchange { id: u16 },
    /// It is a record that comes to the session with this ReqSessionID, which awaits one. Nothing changed.
    Record { id: u16 },
}
