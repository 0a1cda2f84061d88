ghost use Rattle.std.specs.Prelude.{◌≡◌, if◌then◌else◌};
ghost use Rattle.requester_machine.specs.Setup.{ReqSetup, requester_caps};
ghost use Rattle.requester_core.specs.Setup.{IsSetUp};

use spdm_grammar::names::capability::{
    CHUNK_CAP, ENCRYPT_CAP, HBEAT_CAP, KEY_UPD_CAP, MAC_CAP, PSK_CAP,
};
use spdm_grammar::{Caps, FlagSet, Suites};

/// The configuration of a requester. What its keys depend on is kept with its sessions.
#[derive(Clone, Copy)]
pub struct Setup<'a> {
    /// DataTransferSize: the longest message that it receives unchunked, in bytes.
    pub transfer: u32,
    /// MaxSPDMmsgSize: the longest message that it receives in chunks, in bytes.
    pub max: u32,
    /// The optional capabilities that it announces.
    pub flags: FlagSet,
    /// The algorithms that it supports.
    pub suites: Suites,
    /// PSKHint of PSK_EXCHANGE: at most 64 bytes.
    pub hint: &'a [u8],
}

// The bit of a capability where it is announced.
fn bit_if(is_announced: bool, bit: u32) -> u32
    ensures { result ≡ (if is_announced then bit else 0) }
{
    if is_announced { bit } else { 0 }
}

impl Setup<'_> {
    /// The capabilities that the requester announces (DSP0274, "GET_CAPABILITIES").
    pub fn caps(&self) -> Caps
        ensures { (q : ReqSetup) → IsSetUp self.now q → result ≡ requester_caps q }
    {
        let flags = self.flags;
        Caps {
            ct: 0,
            flags: ENCRYPT_CAP
                + MAC_CAP
                + PSK_CAP
                + (bit_if(flags.heartbeat, HBEAT_CAP)
                    + bit_if(flags.key_update, KEY_UPD_CAP)
                    + bit_if(flags.chunk, CHUNK_CAP)),
            transfer: self.transfer,
            max: self.max,
        }
    }
}
