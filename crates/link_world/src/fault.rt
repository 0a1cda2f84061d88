use requester::ReqConfigFault;
use responder::RspConfigFault;
use thiserror::Error;

/// Why a configuration makes no world, in the order of the checks: first the responder, then the requesters in their
/// order. A configuration that was read from a text makes one, unless memory runs out.
#[derive(Clone, Copy, Debug, PartialEq, Eq, Error)]
pub enum WorldFault {
    /// The configuration of the responder is rejected for this. Never an allocation failure.
    #[error("the responder: {0}")]
    Responder(RspConfigFault),
    /// The configuration of a requester, the first that is rejected, is rejected for this. Never an allocation failure.
    #[error("a requester: {0}")]
    Requester(ReqConfigFault),
    /// An allocation failed, for the responder or a requester.
    #[error("out of memory")]
    OutOfMemory,
}

/// Why an event was not completed. Part of its lines was written, and the world must not be used again.
#[derive(Clone, Copy, Debug, PartialEq, Eq, Error)]
pub enum StepFault {
    /// 65,536 packets were sent, and one more is due. The lines before its line were written.
    #[error("a full link")]
    LinkFull,
    #[error("writing failed")]
    WriteFault,
    #[error("out of memory")]
    OutOfMemory,
}
