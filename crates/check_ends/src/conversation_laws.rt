//! What packets show, and what those between others leave, each as the contract of a function that does nothing.

ghost use Rattle.check_ends.specs.Conversation.{AwaitingConversationsStay, OtherConversationsStay, WalksShow};

use check_laws::{one_changes_rows, other_places_stay, rows_are_of_all};

/// A packet of a requester, by any walk of it, makes the rows that the packets then show.
pub fn walks_show()
    ensures { WalksShow }
{
    one_changes_rows();
    rows_are_of_all();
}

/// A packet between the responder and another requester leaves what is kept of this one, among the rows that it makes.
pub fn other_conversations_stay()
    ensures { OtherConversationsStay }
{
    other_places_stay();
}

/// A packet after which more of a body is awaited leaves what is kept, among the same rows.
pub fn awaiting_conversations_stay()
    ensures { AwaitingConversationsStay }
{}
