//! What holds of a responder with all its connections, each law stated as the contract of an empty function.

ghost use Rattle.responder_machine.specs.EndLaws.{OthersStand, OwnDecide};
ghost use Rattle.responder_machine.specs.Independence.{ConnectionsAreIndependent, GivenStandsAlike, RunsAreBounded};

/// A packet from another endpoint changes nothing of what the responder is towards this one: the connection, and the
/// packets that bodies are gathered from.
pub fn others_stand()
    ensures { OthersStand }
{}

/// What the responder sends to an endpoint is decided by what came from it, the next unused draw, and whether the
/// responder is worn.
pub fn own_decide()
    ensures { OwnDecide }
{}

/// Over a whole run, what the responder sends to an endpoint, and what it is towards it, is a function of the packets
/// from there, the data queued for it, time, and the draws that stood next.
pub fn connections_are_independent()
    ensures { ConnectionsAreIndependent }
{}

/// Queued data and time leave responders alike that were alike towards an endpoint, and data queued for another one
/// change nothing of what a responder is towards it.
pub fn given_stands_alike()
    ensures { GivenStandsAlike }
{}

/// After every run each history is one that the responder made, and all of them together have at most as many messages
/// as it took packets, of which it takes 2^40 at most.
pub fn runs_are_bounded()
    ensures { RunsAreBounded }
{}
