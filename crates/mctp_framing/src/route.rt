ghost use Rattle.std.specs.Prelude.{◌<◌};

use spdm_basis::Eid;

/// The addressing that the packets of one message body share: destination, source, and message tag with its owner bit
/// (DSP0236, "Message terminus").
#[derive(Clone, Copy, Debug, PartialEq, Eq)]
pub struct Route {
    /// Destination endpoint ID.
    pub to: Eid,
    /// Source endpoint ID.
    pub from: Eid,
    /// The tag owner bit: set in a request, clear in its answer.
    pub owner: bool,
    /// The message tag, below 8.
    pub tag: u8,
    pub ghost tag_fits: { tag < 8 },
}
