use spdm_basis::{AeadAlg, HashAlg};

/// What both sides chose for their sessions (DSP0274, "ALGORITHMS").
#[derive(Clone, Copy, Debug, PartialEq, Eq)]
pub struct Choice {
    /// The base hash algorithm.
    pub hash: HashAlg,
    /// The AEAD cipher suite.
    pub aead: AeadAlg,
    /// Whether measurements by the DMTF specification were chosen.
    pub measure: bool,
}

/// Which of two algorithms an end has: the one of the lower bit, that of the higher one, or both.
#[derive(Clone, Copy, Debug, PartialEq, Eq)]
pub enum Pick {
    /// SHA-256, or AES-128-GCM.
    Small,
    /// SHA-384, or AES-256-GCM.
    Large,
    Both,
}

/// The algorithms that an end has.
#[derive(Clone, Copy, Debug, PartialEq, Eq)]
pub struct Suites {
    pub hash: Pick,
    pub aead: Pick,
}

/// The capabilities that an end may announce or not.
#[derive(Clone, Copy, Debug, PartialEq, Eq)]
pub struct FlagSet {
    /// MEAS_CAP.
    pub measure: bool,
    /// HBEAT_CAP.
    pub heartbeat: bool,
    /// KEY_UPD_CAP.
    pub key_update: bool,
    /// CHUNK_CAP.
    pub chunk: bool,
}
