//! What packets make of the rows of the table of sessions, each law stated as the contract of an empty function.

ghost use Rattle.check_laws.specs.Changes.{WalksStep};
ghost use Rattle.check_laws.specs.Rows.{OneChangesRows, OtherPlacesStay, RowsAreOfAll};

/// A packet of one requester leaves where the entries of another stand.
pub fn other_places_stay()
    ensures { OtherPlacesStay }
{}

/// Each packet of a walk is a step by which a change is taken.
pub fn walks_step()
    ensures { WalksStep }
{}

/// A packet that changes one dialogue changes the rows by that one alone.
pub fn one_changes_rows()
    ensures { OneChangesRows }
{}

/// All walks over the same packets show the same rows.
pub fn rows_are_of_all()
    ensures { RowsAreOfAll }
{}
