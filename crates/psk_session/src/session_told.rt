ghost use Rattle.std.specs.Prelude.{◌≡◌, ◌≤◌, length};
ghost use Rattle.psk_session.specs.Told.{FitsTold, told_by};
ghost use Rattle.spdm_grammar.specs.Message.{exchange_rsp_message};

use spdm_basis::Buffer;
use spdm_grammar::ExchangeRsp;
use spdm_grammar::names::MAX_OPAQUE_LEN;

/// What PSK_EXCHANGE_RSP told the requester of a session, beside the session's id (DSP0274, "PSK_EXCHANGE_RSP response
/// message format").
#[derive(Debug, Drop)]
pub struct SessionTold {
    /// HeartbeatPeriod in seconds, 0 for no heartbeat: the responder drops a session in which no new record opened for
    /// twice that time.
    pub period: u8,
    /// MeasurementSummaryHash: a hash of the session's size where a summary was asked for, else no bytes.
    pub summary: Buffer<48>,
    /// OpaqueData of the responder: at most 1,024 bytes.
    pub opaque: Buffer<MAX_OPAQUE_LEN>,
}

// The bytes in a buffer of their own.
fn copy_of<const N: usize>(bytes: &[u8]) -> Buffer<N>
    ensures { length bytes.now ≤ N → result ≡ bytes.now }
{
    let mut copy = Buffer::new();
    let _ = copy.extend(bytes);
    copy
}

impl SessionTold {
    // What an answer told.
    pub(crate) fn of(rsp: &ExchangeRsp<'_>) -> SessionTold
        ensures { FitsTold (exchange_rsp_message rsp.now)
            → result ≡ told_by (exchange_rsp_message rsp.now) }
    {
        SessionTold {
            period: rsp.heartbeat,
            summary: copy_of(rsp.summary),
            opaque: copy_of(rsp.opaque),
        }
    }

    // A copy.
    pub(crate) fn copy(&self) -> SessionTold
        ensures { result ≡ self.now }
    {
        SessionTold {
            period: self.period,
            summary: copy_of(self.summary.as_slice()),
            opaque: copy_of(self.opaque.as_slice()),
        }
    }

    // Nothing was told.
    pub(crate) fn none() -> SessionTold {
        SessionTold {
            period: 0,
            summary: Buffer::new(),
            opaque: Buffer::new(),
        }
    }
}
