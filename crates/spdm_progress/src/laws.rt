//! What honest delivery completes, each law stated as the contract of an empty function.

ghost use Rattle.spdm_progress.specs.Connecting.{
  ConnectCompletes,
  EachIsConnected,
  SixPacketsAreEnough,
};
ghost use Rattle.spdm_progress.specs.Measuring.{MeasureCompletes};
ghost use Rattle.spdm_progress.specs.Opening.{OpenCompletes};
ghost use Rattle.spdm_progress.specs.Scripts.{
  ConnectedCanMeasure,
  ConnectsQuietly,
  HonestScriptsComplete,
  PumpedScriptsAreHonest,
  PumpsAreEnough,
  QuietCommandsComplete,
  QuietMeasuresComplete,
  QuietWorldsComplete,
  ResultsComeLast,
};
ghost use Rattle.spdm_progress.specs.SessionCommands.{
  AnswersAreQueued,
  AnswersWaitFirst,
  EndedAtBothEnds,
  SessionCommandsComplete,
};

/// A connect that is told where no packet waits is done once no packet waits again, whatever an honest script says in
/// between: the requester is reported so, and both ends hold one negotiation. It speaks of set-ups with which no
/// message of it needs chunks.
pub fn connect_completes()
    ensures { ConnectCompletes }
{}

/// No packet of it waits after a pump of six.
pub fn six_packets_are_enough()
    ensures { SixPacketsAreEnough }
{}

/// The responder has a connection with each requester of a world.
pub fn each_is_connected()
    ensures { EachIsConnected }
{}

/// A measure in the clear, told where no packet waits, is done once no packet waits again, whatever an honest script
/// says in between: the requester is told how many measurements there are, and the record that it took is the one that
/// the responder is set up with. It speaks of answers that need no chunks.
pub fn measure_completes()
    ensures { MeasureCompletes }
{}

/// Right after a connect that chose measurements, a measure needs no more than that a block which it names is
/// configured, and that the answer can go to the requester, in chunks too.
pub fn connected_can_measure()
    ensures { ConnectedCanMeasure }
{}

/// A connect leaves the two ends quiet, whatever came before, and both hold one negotiation. Its messages may be sent
/// in chunks.
pub fn connects_quietly()
    ensures { ConnectsQuietly }
{}

/// An open, told where no packet waits and the two ends are quiet, is done once no packet waits again: the requester is
/// told the id of a session that is open at both ends, in step, and the two ends are quiet. PSK_EXCHANGE and its answer
/// may be sent in chunks.
pub fn open_completes()
    ensures { OpenCompletes }
{}

/// Each command that asks something of an open session (application data, HEARTBEAT, KEY_UPDATE of either kind,
/// GET_MEASUREMENTS whose answer may arrive in chunks, END_SESSION), told where no packet waits and the two ends are
/// quiet, comes to its result once no packet waits again, and leaves the two ends quiet.
pub fn session_commands_complete()
    ensures { SessionCommandsComplete }
{}

/// After a send among them, one record came to the responder. It brought the bytes that were sent, and what the
/// requester took is what was first in the queue before it: the first data that waited, and empty where none did.
pub fn answers_are_queued()
    ensures { AnswersAreQueued }
{}

/// Where data waited already when it was told, these are the first of them.
pub fn answers_wait_first()
    ensures { AnswersWaitFirst }
{}

/// After an end of a session among them, the responder does not hold it either.
pub fn ended_at_both_ends()
    ensures { EndedAtBothEnds }
{}

/// The same of every command that quiet ends answer `ok`, in the clear or in a session, with what its result means at
/// either end.
pub fn quiet_commands_complete()
    ensures { QuietCommandsComplete }
{}

/// After a measure among them, in the clear or in a session, in chunks too, the requester took the record that the
/// responder is set up with.
pub fn quiet_measures_complete()
    ensures { QuietMeasuresComplete }
{}

/// No packet of such a command waits after a pump of 414.
pub fn pumps_are_enough()
    ensures { PumpsAreEnough }
{}

/// The result of such a command comes with the last packet: where no request of the requester is outstanding any more, no
/// packet waits.
pub fn results_come_last()
    ensures { ResultsComeLast }
{}

/// From a quiet world on, each command of an honest script that is answered `ok` and has what it needs is done before
/// the next one, with what its result means, and the world after them is quiet.
pub fn quiet_worlds_complete()
    ensures { QuietWorldsComplete }
{}

/// So it is with each honest script from its beginning on.
pub fn honest_scripts_complete()
    ensures { HonestScriptsComplete }
{}

/// For any commands there is such a script: it is honest where each command has a pump of 414 packets after it.
pub fn pumped_scripts_are_honest()
    ensures { PumpedScriptsAreHonest }
{}
