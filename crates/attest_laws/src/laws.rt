//! What attestation may rely on, each law stated as the contract of an empty function.

ghost use Rattle.attest_laws.specs.Attested.{WorldsAttestAsConfigured};
ghost use Rattle.attest_laws.specs.Honest.{HonestAttestationsDecide};
ghost use Rattle.attest_laws.specs.Lives.{LivesAttestAsConfigured, LivesMeasureAsConfigured};
ghost use Rattle.attest_laws.specs.Measured.{WorldsMeasureAsConfigured};

/// In every world that a set-up and events lead to, where no two tags agree by chance, the record of each `measured` in
/// a session is that of the blocks that the responder is set up with, for the operation that was asked. It may have come
/// in chunks.
pub fn measured_as_configured()
    ensures { WorldsMeasureAsConfigured }
{}

/// Whatever happens to an attesting requester, it does what a requester of a world does. Where no two tags agree by
/// chance there, the record that it appraises is that of all blocks that the responder is set up with: its verdict is
/// what this record comes to under its rules, and `Trusted` exactly where this record is trusted.
pub fn attested_as_configured()
    ensures { WorldsAttestAsConfigured }
{}

/// So it is of measurements in each life of ends that start again, where no two tags of all lives agree by chance.
pub fn measured_in_lives()
    ensures { LivesMeasureAsConfigured }
{}

/// So it is of an attesting requester in a life behind others.
pub fn attested_in_lives()
    ensures { LivesAttestAsConfigured }
{}

/// Where each packet is given to its end once, in order, and each command that an attesting requester tells can be done,
/// it comes to its decision: by the record of all blocks that the responder is set up with. Its verdict is what this
/// record comes to under its rules.
pub fn honest_attestations_decide()
    ensures { HonestAttestationsDecide }
{}
