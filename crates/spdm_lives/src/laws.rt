//! What holds of the lives of the ends of a world, one after another, each law stated as the contract of an empty
//! function.

ghost use Rattle.spdm_lives.specs.Laws.{LivesHold, NoTranscriptTwice, ScriptLivesHold, TextLivesHold, TextTranscriptsApart};

/// The sessions of one end in two of its lives have different T1: all those that a responder ever began, with whatever
/// requesters, and all those that a requester ever accepted. There is no premise of chance.
pub fn no_transcript_twice()
    ensures { NoTranscriptTwice }
{}

/// Where no two tags of all lives agree by chance, both ends of a session agree in each life as in a single one, nothing
/// that was made in an earlier life is accepted, no session is held open that began with old verify data, and no number
/// of a key seals twice over all lives.
pub fn lives_hold()
    ensures { LivesHold }
{}

/// So it is of the lives of a script: one configuration and seed, and boot numbers that rise.
pub fn script_lives_hold()
    ensures { ScriptLivesHold }
{}

/// So it is of the lives of a text, in its order, whose boot numbers are 1, 2, 3 and so on.
pub fn text_lives_hold()
    ensures { TextLivesHold }
{}

/// The sessions of one end in two lives of a text have different T1, whatever agrees by chance.
pub fn text_transcripts_apart()
    ensures { TextTranscriptsApart }
{}
