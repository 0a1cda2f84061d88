/// A direction of a session.
#[derive(Clone, Copy, Debug, PartialEq, Eq)]
pub enum Direction {
    /// From the requester to the responder.
    Request,
    /// From the responder to the requester.
    Response,
}
