//! What goes on while a large response is fetched in chunks, each law stated as the contract of an empty function.

ghost use Rattle.check_late_laws.specs.FetchingRows.{FetchingShows};
ghost use Rattle.check_late_laws.specs.FetchingShown.{ChunkIsShown, LastIsWhole};

use check_laws::{one_changes_rows, rows_are_of_all};

/// The rows after a packet are those that it makes by what is kept, whether a large response is fetched or not.
pub fn fetching_shows()
    ensures { FetchingShows }
{
    one_changes_rows();
    rows_are_of_all();
}

/// An answer with which the large one is fetched on shows nothing of it, or its next chunk.
pub fn chunk_is_shown()
    ensures { ChunkIsShown }
{}

/// With the last chunk all bytes are there.
pub fn last_is_whole()
    ensures { LastIsWhole }
{}
