//! What holds of captures, each law stated as the contract of an empty function.

ghost use Rattle.capture_machine.specs.Capture.{BeginningConforms, OneIsFirst};
ghost use Rattle.capture_machine.specs.Difference.{FirstHasReason, OneReason};
ghost use Rattle.capture_machine.specs.SessionTable.{ConformingHasTable, OneTable};

/// The beginning of a conforming capture conforms, so there is a first packet that does not.
pub fn beginning_conforms()
    ensures { BeginningConforms }
{}

/// A capture conforms where it has a table of its sessions, and nowhere else.
pub fn conforming_has_table()
    ensures { ConformingHasTable }
{}

/// A capture has one table of its sessions, whichever values its ends chose where nothing shows them.
pub fn one_table()
    ensures { OneTable }
{}

/// No capture has two packets of which each is the first that does not conform.
pub fn one_is_first()
    ensures { OneIsFirst }
{}

/// The first packet that does not conform has one of the seven reasons: they are not all refuted. Which of them it is
/// need not be decided, since whether verify data alone are wrong is determined by what might stand there instead.
pub fn first_has_reason()
    ensures { FirstHasReason }
{}

/// No capture has two first packets that do not conform, and none has two of the seven reasons.
pub fn one_reason()
    ensures { OneReason }
{}
