//! What holds of a requester and a responder on streams of frames, each law stated as the contract of an empty
//! function.

ghost use Rattle.stream_laws.specs.DeviceLaws.{EveryDeviceCarriageIsAWorld};
ghost use Rattle.stream_laws.specs.Laws.{EveryCarriageIsAWorld, FirstIsDriven, ReadConfigurationKeepsLimits, ResponderIsServed, ScriptWorldsAreSuch, StreamsHold};

/// What a text configures keeps all limits that the laws below ask for.
pub fn read_configuration_keeps_limits()
    ensures { ReadConfigurationKeepsLimits }
{}

/// With the seeds of a script the world of a configuration is the one that the script sets up.
pub fn script_worlds_are_such()
    ensures { ScriptWorldsAreSuch }
{}

/// On frames that bring what comes to requester 1 of a world, a driven requester writes what is of requester 1 in the
/// trace of that world, and stands at the end as requester 1 does.
pub fn first_requester_is_driven()
    ensures { FirstIsDriven }
{}

/// On frames that bring what comes to the responder of a world, where no data are queued, a responder writes the
/// packets that the responder sends in the trace of that world, and stands at the end as it does.
pub fn responder_is_served()
    ensures { ResponderIsServed }
{}

/// In each world of a configuration, with whatever seeds, and where no two tags agree by chance,
/// agreement, data prefix, matched sessions, equal hashes and single use of numbers hold.
pub fn streams_hold()
    ensures { StreamsHold }
{}

/// Whatever is carried to a driven requester and a responder, in whatever order, the two do what the ends of one world
/// do, and all of that holds of them where no two tags agree by chance.
pub fn every_carriage_is_a_world()
    ensures { EveryCarriageIsAWorld }
{}

/// Whatever is carried to a driven requester and a device, in whatever order, and whatever the device's application
/// answers, the two do what the ends of one world do into which each reply is put where it is given, and all of that
/// holds of them where no two tags agree by chance.
pub fn every_device_carriage_is_a_world()
    ensures { EveryDeviceCarriageIsAWorld }
{}
