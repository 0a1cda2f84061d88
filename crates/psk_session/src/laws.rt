ghost use Rattle.psk_session.specs.AskLaws.{AskIsCommand};
ghost use Rattle.psk_session.specs.TookLaws.{CourseIsEntry, DataAreLast, FinishIsEntry, OpeningIsAnswer, UnopenedIsIgnored};

/// What is asked of an open session is what a command of a requester does: it fails alike, or adds the same record to
/// the session.
pub fn ask_is_command()
    ensures { AskIsCommand }
{}

/// An answer to PSK_EXCHANGE is refused as a requester ignores it, or is a step of the session with PSK_FINISH after
/// it. An ERROR is read before, by the connection.
pub fn opening_is_answer()
    ensures { OpeningIsAnswer }
{}

/// The record for which PSK_FINISH_RSP is awaited is an entry of a requester's history, with this verdict.
pub fn finish_is_entry()
    ensures { FinishIsEntry }
{}

/// A record that takes a course is an entry of a requester's history, which leads to that, and its session is what the
/// course leaves.
pub fn course_is_entry()
    ensures { CourseIsEntry }
{}

/// A record that does not open is ignored by a requester.
pub fn unopened_is_ignored()
    ensures { UnopenedIsIgnored }
{}

/// The data that a record of a session brought are the last data of its requester.
pub fn data_are_last()
    ensures { DataAreLast }
{}
