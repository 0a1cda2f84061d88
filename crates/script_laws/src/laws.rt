//! What holds of every script that a text is, each law stated as the contract of an empty function.

ghost use Rattle.script_laws.specs.Ends.{ConfiguredEndsHaveNoFault, ReadEndsHaveNoFault};
ghost use Rattle.script_laws.specs.Laws.{ReadScriptIsSound};
ghost use Rattle.script_laws.specs.Refused.{RefusedByTable, RefusesIn, TableRefuses};
ghost use Rattle.script_laws.specs.Worlds.{AgreesIn, CompletesIn, DeliversIn, MatchesAtPacketsIn, MatchesIn, ReadSetUpIsConfigured, SealsOnceIn, ShowsAlikeIn, SoundScriptHolds};
ghost use Rattle.std.specs.Prelude.{ℕ, List};

/// A script that a text is has its configuration and its events in range.
pub fn read_script_is_sound()
    ensures { ReadScriptIsSound }
{}

/// What a script sets up keeps all limits that agreement asks for.
pub fn script_is_configured()
    ensures { ReadSetUpIsConfigured }
{}

/// No end of a script is refused, whatever it is made of that sets it up.
pub fn ends_have_no_fault()
    ensures { ReadEndsHaveNoFault }
{}

/// No end of a configuration that a text is, with a seed or without one, is refused, whatever it is made of that sets
/// it up.
pub fn configured_ends_have_no_fault()
    ensures { ConfiguredEndsHaveNoFault }
{}

/// After each beginning of the events of a script without chance, where both ends of a pair hold open a session of one
/// id, the two have equal T2, equal choices and equal common capabilities.
pub fn script_agrees()
    ensures { (text : List ℕ) → AgreesIn text }
{}

/// In each such world the application data that an end took under a T2 is the beginning of what the other end sealed
/// under it, in both directions.
pub fn script_delivers()
    ensures { (text : List ℕ) → DeliversIn text }
{}

/// In each such world a session that a requester holds open was opened at the responder with the same T2, and different
/// ones have different T2.
pub fn script_matches()
    ensures { (text : List ℕ) → MatchesIn text }
{}

/// The five hold right after each packet that an event gives to an end, too; and where it is one for a requester, each
/// session that this then holds open, and each that it ever opened, the responder had opened before the packet.
pub fn script_matches_at_packets()
    ensures { (text : List ℕ) → MatchesAtPacketsIn text }
{}

/// In each such world, where both ends of a pair hold open a session with one T2, the hashes that they show of it are
/// equal.
pub fn script_shows_alike()
    ensures { (text : List ℕ) → ShowsAlikeIn text }
{}

/// In each such world no two different records are sealed under one purpose and number.
pub fn script_seals_once()
    ensures { (text : List ℕ) → SealsOnceIn text }
{}

/// At each packet that an event of a script gives to the responder: it is told as refused exactly where the table
/// refuses the request that it completes. This gets exactly its ERROR, and changes no session, apart from the counts of
/// records, the stored reply and the clock of the one whose record carried it; a refused large request that chunks
/// carried in the clear changes none.
pub fn script_refuses()
    ensures { (text : List ℕ) → RefusesIn text }
{}

/// After each beginning of the events of a script that delivers honestly, each command that was answered `ok` is done
/// before the next one, with what it means, where each of them could be done.
pub fn script_completes()
    ensures { (text : List ℕ) → CompletesIn text }
{}

/// What agreement, delivery and refusals say holds of each script whose configuration is in range, be it a text or
/// generated.
pub fn sound_script_holds()
    ensures { SoundScriptHolds }
{}

/// A request, in the clear or in a record, that comes anew and that the table refuses is told as refused with the
/// table's code, and gets exactly its ERROR: in the clear upon a clear request, and upon a record in the next record of
/// the session.
pub fn table_refuses()
    ensures { TableRefuses }
{}

/// What is told as refused is a request that comes anew and that the table refuses with this code.
pub fn refused_by_table()
    ensures { RefusedByTable }
{}
