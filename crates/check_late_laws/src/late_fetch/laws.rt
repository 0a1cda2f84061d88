//! What stands after a request whose large response passed unseen, each law stated as the contract of an empty
//! function.

ghost use Rattle.check_late_laws.specs.Late.PassedCompletes.{LateCompletes};

/// An answer is the last chunk of a large one whose fetch began late exactly when its request may lead to the bytes in
/// front, and no mark is set of the session that they begin.
pub fn late_completes()
    ensures { LateCompletes }
{}
