//! The requester of SPDM 1.2 sessions under a pre-shared key as definitions over whole histories: which commands it
//! does, what it sends, what it takes and what it tells. No code runs here. The definitions are in `specs/`, and each
//! function below has a law about them as its contract.
//!
//! Read first: `requester_told` in `specs/Requesting.antt`, what a requester does with a command,
//! with `requester_given` for a packet. The law to read first is `command_is_allowed`.
#![tactic(auto)]

mod accepted_laws;
mod bound_laws;
mod end_laws;
mod number_laws;
mod under_way_laws;

ghost use Rattle.requester_machine.specs.Laws.{CommandIsAllowed, BodyIsAllowed, RetryAddsNothing, FaultAddsNothing, IgnoredAddsNothing, ClearAddsNothingInSession, UnopenedAddsNothing, LiveIdsAreFew, NewSessionIsFresh, SessionsAreInOrder, NumbersAreCounts, UpdateBeginsAnew, TakenTagsAreRight};
ghost use Rattle.requester_machine.specs.ResponseLaws.{ResponsesAreCounts, UpdateAllBeginsAnew};

pub use accepted_laws::{
    accepted_is_verified, accepted_session_is_verified, taken_record_is_opened,
};
pub use bound_laws::{counts_are_bounded, sessions_are_bounded};
pub use end_laws::runs_are_bounded;
pub use number_laws::{keys_are_few, numbers_are_few, taken_number_is_few};
pub use under_way_laws::{
    chunks_are_under_way, live_is_under_negotiation, session_sizes_are_set_up, sizes_are_set_up,
};

/// What the requester does with a command, it may, where its setup is within its limits.
pub fn command_is_allowed()
    ensures { CommandIsAllowed }
{}

/// What the requester does with a body that came, it may.
pub fn body_is_allowed()
    ensures { BodyIsAllowed }
{}

/// Retry adds nothing to the history.
pub fn retry_adds_nothing()
    ensures { RetryAddsNothing }
{}

/// A command with a fault adds nothing to the history.
pub fn fault_adds_nothing()
    ensures { FaultAddsNothing }
{}

/// A body that is ignored adds nothing to the history.
pub fn ignored_adds_nothing()
    ensures { IgnoredAddsNothing }
{}

/// While something is asked of a session, no clear message adds anything to the history.
pub fn clear_adds_nothing_in_session()
    ensures { ClearAddsNothingInSession }
{}

/// A record that does not open adds nothing to the history.
pub fn unopened_adds_nothing()
    ensures { UnopenedAddsNothing }
{}

/// The sessions of a history that the requester made have ids from 1 to 4.
pub fn live_ids_are_few()
    ensures { LiveIdsAreFew }
{}

/// A new session has an id from 1 to 4 that no live session had, and begins with its PSK_EXCHANGE under the negotiation
/// as it stands.
pub fn new_session_is_fresh()
    ensures { NewSessionIsFresh }
{}

/// In a history that the requester made, the steps of each session are in order: records are sealed and taken in turn.
/// At most the session of the outstanding request waits, and all others are open.
pub fn sessions_are_in_order()
    ensures { SessionsAreInOrder }
{}

/// In a history that the requester made, the number of a session's next record is the count of those sealed under its
/// purpose.
pub fn numbers_are_counts()
    ensures { NumbersAreCounts }
{}

/// In a history that the requester made, the number of a session's next response is the count of those taken under its
/// purpose.
pub fn responses_are_counts()
    ensures { ResponsesAreCounts }
{}

/// The answer to UpdateAllKeys is number 0 of the next epoch of responses.
pub fn update_all_begins_anew()
    ensures { UpdateAllBeginsAnew }
{}

/// An update of the request key begins at number 0 of the next epoch.
pub fn update_begins_anew()
    ensures { UpdateBeginsAnew }
{}

/// Where a body adds an entry to the history, each tag that it was compared for is the computed one.
pub fn taken_tags_are_right()
    ensures { TakenTagsAreRight }
{}
