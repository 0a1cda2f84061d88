use appraise::Appraisal;

/// What a packet came to.
#[derive(Clone, Copy, Debug, PartialEq, Eq)]
pub enum Progressed {
    /// Nothing was decided at it.
    Going,
    /// The record of measurements came, and this is what it comes to. The session is ended.
    Verdict(Appraisal),
    /// No record will come: a request was refused, the negotiation stopped, the session was lost, or the next command has
    /// a fault.
    Failed,
}
