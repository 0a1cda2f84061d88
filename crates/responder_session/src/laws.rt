ghost use Rattle.responder_session.specs.ExchangeLaws.{SessionWaits, StartIsAnswer, WaitingStands};
ghost use Rattle.responder_session.specs.Laws.{ToldIsRecord, TookIsRecord};
ghost use Rattle.responder_session.specs.Staged.{BehindHasReply};

/// What a session that is stepped in place tells of a record is what the responder does with it in every history whose
/// live session it stands for: it adds the same entry, told alike, sends the stored reply again, or does not open it.
pub fn told_is_record()
    ensures { ToldIsRecord }
{}

/// What a state answers to a record is what the responder does with it in every history whose live session it stands
/// for: it adds the same entry, told alike, sends the stored reply again, or does not open it.
pub fn took_is_record()
    ensures { TookIsRecord }
{}

/// The PSK_EXCHANGE_RSP that begins a session is the whole answer of the responder, where its parts are the
/// responder's.
pub fn start_is_answer()
    ensures { StartIsAnswer }
{}

/// A session that is stepped in place stands for its events also when seconds have passed.
pub fn session_waits()
    ensures { SessionWaits }
{}

/// A state stands for its session also when seconds have passed.
pub fn waiting_stands()
    ensures { WaitingStands }
{}

/// A session after its handshake has taken a record, so it keeps a reply.
pub fn behind_has_reply()
    ensures { BehindHasReply }
{}
