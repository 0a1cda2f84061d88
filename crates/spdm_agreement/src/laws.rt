//! What holds of every world without chance, and wherever the moves of a pre-shared key lead without it, each law
//! stated as the contract of an empty function.

ghost use Rattle.spdm_agreement.specs.Claims.{OneTranscript, Delivered, MatchedSessions, OneRecord, FreshSessions};
ghost use Rattle.spdm_agreement.specs.Worlds.{ScriptsAreConfigured, ScriptsHold, WorldsAgree, WorldsDeliver, WorldsMatch, WorldsSealOnce, WorldsShowAlike};

/// Where both ends hold open a session of one pair of ids, its transcripts are equal.
pub fn one_transcript()
    ensures { OneTranscript }
{}

/// What an end took under a T2 is the beginning of what the other end sealed under it.
pub fn delivered()
    ensures { Delivered }
{}

/// A session that the requester holds open was finished at the responder, and each of them belongs to another one
/// there.
pub fn matched_sessions()
    ensures { MatchedSessions }
{}

/// No two different records are sealed under one purpose and number.
pub fn one_record()
    ensures { OneRecord }
{}

/// Nothing was said, heard or taken under a T2 before its session opens.
pub fn fresh_sessions()
    ensures { FreshSessions }
{}

/// In every world that a set-up and events lead to, where both ends of a pair hold open a session of one id, the two
/// have equal T2, equal choices and equal common capabilities.
pub fn agreement()
    ensures { WorldsAgree }
{}

/// In every such world the application data that an end took under a T2 is the beginning of what the other end sealed
/// under it, in both directions.
pub fn data_prefix()
    ensures { WorldsDeliver }
{}

/// In every such world a session that a requester holds open was opened at the responder with the same T2, and
/// different ones have different T2.
pub fn matched()
    ensures { WorldsMatch }
{}

/// In every such world no two different records are sealed under one purpose and number.
pub fn sealed_once()
    ensures { WorldsSealOnce }
{}

/// In every such world, where both ends of a pair hold open a session with one T2, the hashes that they show of it are
/// equal.
pub fn hashes_agree()
    ensures { WorldsShowAlike }
{}

/// What a text within its limits sets up is such a world, with whatever common seed and in the life of each boot
/// number.
pub fn scripts_are_configured()
    ensures { ScriptsAreConfigured }
{}

/// So agreement, data prefix, matched sessions and single use of numbers hold of each world that the events of a script
/// lead to, where no two tags agree by chance.
pub fn scripts_hold()
    ensures { ScriptsHold }
{}
