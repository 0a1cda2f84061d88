//! What holds of choices, each law stated as the contract of an empty function.

ghost use Rattle.std.specs.Prelude.{◌≡◌, Some};
ghost use Rattle.spdm_grammar.specs.declared.messages.choice.Choice.{Choice};
ghost use Rattle.spdm_grammar.specs.Message.{OfferMessage};
ghost use Rattle.spdm_grammar.specs.Responses.{IsSoundReply};
ghost use Rattle.negotiate.specs.declared.selection.AlgPolicy.{AlgPolicy};
ghost use Rattle.negotiate.specs.Choosing.{selected, agreed};
ghost use Rattle.negotiate.specs.Reply.{reply_of};

/// A requester takes from the reply to its offer, whatever it offered, exactly what the responder chose.
pub fn selected_is_agreed()
    ensures { (offer : OfferMessage) (policy : AlgPolicy) (choice : Choice) →
        selected offer policy ≡ Some choice → agreed offer (reply_of offer choice) ≡ Some choice }
{}

/// The reply to an offer has an encoding.
pub fn reply_is_sound()
    ensures { (offer : OfferMessage) (choice : Choice) → IsSoundReply (reply_of offer choice) }
{}
