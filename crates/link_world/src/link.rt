use crate::SentPackets;
use crate::ends::Ends;
use mctp_framing::PacketList;

/// The endpoints of a world, and the packets sent between them.
#[derive(Drop)]
pub struct Link {
    pub(crate) ends: Ends,
    pub(crate) sent: SentPackets,
    // The packets of one message.
    pub(crate) out: PacketList,
}
