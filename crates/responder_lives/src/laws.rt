//! What holds of the lives of a responder beside requesters that go on, each law stated as the contract of an empty
//! function.

ghost use Rattle.responder_lives.specs.Laws.{ResponderLivesHold, RestartedApart, ScriptRestartsHold};

/// Where a responder starts again, once or more often, with draws behind its earlier ones, while its requesters go on, and no
/// two tags agree by chance: the sessions that both ends hold open agree; no number of a key seals twice; what each end took
/// of application data is the beginning of what the other end sealed, the responder in one of its lives; each session that a
/// requester opened was opened in one life of the responder; and no record of a requester, and no RequesterVerifyData, that
/// was made before the responder started is accepted by it.
pub fn responder_lives_hold()
    ensures { ResponderLivesHold }
{}

/// So it is of a script of which the responder alone starts again, with boot numbers that rise.
pub fn script_restarts_hold()
    ensures { ScriptRestartsHold }
{}

/// The sessions of a responder in two of its lives have different T1: all that it ever began, with whatever requesters. There
/// is no premise of chance.
pub fn restarted_apart()
    ensures { RestartedApart }
{}
