//! The laws, each stated as the contract of an empty function.

ghost use Rattle.capture_laws.specs.Warned.{NoneBeginsAfterWarning};

/// After an answer in the clear to a record for whose answer the requester waits, no fetch begins of a large response
/// in the clear that passed unseen before.
pub fn none_begins_after_warning()
    ensures { NoneBeginsAfterWarning }
{}
