//! Which answers a responder may give while its large response is fetched, each law stated as the contract of an empty
//! function.

ghost use Rattle.check_fetched_laws.specs.AlikeAnswers.{ChunkIsShown};
ghost use Rattle.check_fetched_laws.specs.WholeValues.{WholeIsShown};

/// A whole answer shows the values that it was made at.
pub fn whole_is_shown()
    ensures { WholeIsShown }
{}

/// An answer that gives a chunk shows it.
pub fn chunk_is_shown()
    ensures { ChunkIsShown }
{}
