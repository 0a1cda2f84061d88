//! What holds of a requester with all that it was told and given, each law stated as the contract of an empty function.

ghost use Rattle.requester_machine.specs.EndLaws.{RunsAreBounded};

/// After every run the history is one that the requester made, with at most as many entries as it took packets and
/// commands, of which it takes 2^40 at most.
pub fn runs_are_bounded()
    ensures { RunsAreBounded }
{}
