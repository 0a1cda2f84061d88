//! A requester and a responder that answer streams of frames, as the ends of a world. No code runs here: each function
//! has a law as its contract.
//!
//! Read first: `EveryCarriageIsAWorld` in `specs/Laws.antt`, that the ends are those of a world in whatever order
//! frames are carried. The law to read first is `every_carriage_is_a_world`; `every_device_carriage_is_a_world` is the
//! same of a device, with the replies of its application.
#![tactic(auto)]

mod laws;

pub use laws::{
    every_carriage_is_a_world, every_device_carriage_is_a_world, first_requester_is_driven,
    read_configuration_keeps_limits, responder_is_served, script_worlds_are_such, streams_hold,
};
