//! What holds of the lives of every text, each law stated as the contract of an empty function.

ghost use Rattle.lives_laws.specs.TextLives.{LivesApartIn, LivesHoldIn, NewestIsRunIn};
ghost use Rattle.std.specs.Prelude.{ℕ, List};

/// After each beginning of the events of a text of lives, where nothing agrees by chance over all lives up to there: both
/// ends of a session agree in each life, nothing that was made in an earlier life is accepted, no session is held open
/// that began with old verify data, and no number of a key seals twice over all lives.
pub fn lives_hold()
    ensures { (text : List ℕ) → LivesHoldIn text }
{}

/// After each such beginning the sessions of one end in two lives have different T1: all that a responder ever began, and
/// all that a requester ever accepted. There is no premise of chance.
pub fn lives_are_apart()
    ensures { (text : List ℕ) → LivesApartIn text }
{}

/// The newest of these lives is the one that the run of the text has then.
pub fn newest_life_is_run()
    ensures { (text : List ℕ) → NewestIsRunIn text }
{}
