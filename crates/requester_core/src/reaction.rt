use spdm_grammar::Event;

/// The outcome of a complete message body.
#[derive(Clone, Copy, Debug, PartialEq, Eq)]
pub struct Reaction {
    /// What is reported.
    pub event: Event,
    /// The tag of the message sent next: present exactly when `event` is `Progress`.
    pub tag: Option<u8>,
}
