ghost use Rattle.requester_core.specs.SessionSteps.{ClearPasses, MeasurePasses};

/// A message in the clear that changes no session leaves the sessions as they are.
pub fn clear_passes()
    ensures { ClearPasses }
{}

/// GET_MEASUREMENTS in the clear touches no session.
pub fn measure_passes()
    ensures { MeasurePasses }
{}
