//! What goes on while a large request is sent in chunks, each law stated as the contract of an empty function.

ghost use Rattle.check_laws.specs.Large.SendingShown.{LastIsWhole, WholeIsShown};

/// With the last chunk all bytes are there.
pub fn last_is_whole()
    ensures { LastIsWhole }
{}

/// Whole bytes are told by the request that they encode, and by the values that this shows.
pub fn whole_is_shown()
    ensures { WholeIsShown }
{}
