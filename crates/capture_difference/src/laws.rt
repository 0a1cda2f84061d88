ghost use Rattle.capture_difference.specs.Difference.{OneDifference};

/// The law that of no capture two things are told.
pub fn one_difference()
    ensures { OneDifference }
{}
