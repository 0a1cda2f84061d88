use thiserror::Error;

/// Two ends have no algorithms in common, or a reply chooses what was not offered.
#[derive(Clone, Copy, Debug, PartialEq, Eq, Error)]
#[error("no choice of algorithms")]
pub struct NoChoice;
