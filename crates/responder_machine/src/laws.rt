//! What holds of the responder's definitions at every history, each law stated as the contract of an empty function.

ghost use Rattle.responder_machine.specs.Laws.{ChosenIsAllowed, DoesWhatItMay, FinishIsVerified, FourAreHeldAtMost, FreeIdIsFree, HeldAreFew, LiveIsUnderNegotiation, LiveIdIsFromOneToFour, NewSessionIsFresh, OneIsInHandshake, RecordKeepsOthers, RefusedClearKeepsConnection, RefusedClearKeepsSessions, RefusedInChunksKeepsSessions, RefusedRecordKeepsSessions, RepeatAddsNothing, RepeatedRecordAddsNothing, RequestHasItsCode, TakenExchangeIsFresh, TakenIsRepeated, TakenRecordIsOpened, TakenRecordIsRepeated, UnopenedAddsNothing};
ghost use Rattle.responder_machine.specs.NumberLaws.{FinishBeginsAtZero, MadeIsStaged, NextNumbersAreCounts, NumbersAreFew, ReplyNumberIsCount, UpdateAllIsAnsweredAtZero, UpdateBeginsAtZero};
ghost use Rattle.responder_machine.specs.SettledLaws.{AlgorithmsSettleChoice, CapabilitiesSettleCommon, SizesAreKnown};

/// The values that this project's responder chooses at a place of a history that it made are ones that every responder
/// of this profile may choose.
pub fn chosen_is_allowed()
    ensures { ChosenIsAllowed }
{}

/// What the responder does with a body, clear or a record, in a history that it made, it may do.
pub fn does_what_it_may()
    ensures { DoesWhatItMay }
{}

/// A clear request that is refused changes no session, under whatever values and draw.
pub fn refused_clear_keeps_sessions()
    ensures { RefusedClearKeepsSessions }
{}

/// A clear chunk whose carried request is refused changes no session.
pub fn refused_in_chunks_keeps_sessions()
    ensures { RefusedInChunksKeepsSessions }
{}

/// A refused request in a record changes no session but for the counts of records, the stored reply and the clock of
/// its carrier.
pub fn refused_record_keeps_sessions()
    ensures { RefusedRecordKeepsSessions }
{}

/// A record changes nothing of a session with another id.
pub fn record_keeps_others()
    ensures { RecordKeepsOthers }
{}

/// A repeated clear request adds nothing to the history.
pub fn repeat_adds_nothing()
    ensures { RepeatAddsNothing }
{}

/// A repeated record, of a live session or of the one ended session that is kept, adds nothing to the history.
pub fn repeated_record_adds_nothing()
    ensures { RepeatedRecordAddsNothing }
{}

/// A record for no live session, or one that its session does not open, adds nothing to the history.
pub fn unopened_adds_nothing()
    ensures { UnopenedAddsNothing }
{}

/// A clear message that was taken and comes again at once under its tag gets the same body.
pub fn taken_is_repeated()
    ensures { TakenIsRepeated }
{}

/// A record that was taken and comes again at once gets the same body, under any tag and after END_SESSION too.
pub fn taken_record_is_repeated()
    ensures { TakenRecordIsRepeated }
{}

/// A PSK_FINISH that takes effect has the requester's verify data over Tv of the session that its record names.
pub fn finish_is_verified()
    ensures { FinishIsVerified }
{}

/// The id that the responder chooses for a new session is from 1 to 4 and that of no established session, unless there
/// are four of them.
pub fn free_id_is_free()
    ensures { FreeIdIsFree }
{}

/// At most four sessions with an id from 1 to 4 are established.
pub fn four_are_held_at_most()
    ensures { FourAreHeldAtMost }
{}

/// A live session of a history that the responder made has an id from 1 to 4.
pub fn live_id_is_from_one_to_four()
    ensures { LiveIdIsFromOneToFour }
{}

/// Of two live sessions of a connection one at most is in its handshake.
pub fn one_is_in_handshake()
    ensures { OneIsInHandshake }
{}

/// A PSK_EXCHANGE that is not refused begins a session under the id of its answer, from 1 to 4, which no established
/// session had, with the negotiation as it stands.
pub fn new_session_is_fresh()
    ensures { NewSessionIsFresh }
{}

/// Each clear message that takes a PSK_EXCHANGE, also as the last chunk of a large one, begins a session under an id
/// that no established session had.
pub fn taken_exchange_is_fresh()
    ensures { TakenExchangeIsFresh }
{}

/// The request that a message encodes has the code that stands in its second byte.
pub fn request_has_its_code()
    ensures { RequestHasItsCode }
{}

/// In a session of a history that the responder made PSK_FINISH was taken in the handshake alone, and KEY_UPDATE after
/// it alone.
pub fn made_is_staged()
    ensures { MadeIsStaged }
{}

/// The next number of each direction of a session is the count of its own records under its present purpose.
pub fn next_numbers_are_counts()
    ensures { NextNumbersAreCounts }
{}

/// The number of an answer is the count of the session's own records that were sealed under its purpose before it, so
/// that a session seals no two answers under one purpose and number.
pub fn reply_number_is_count()
    ensures { ReplyNumberIsCount }
{}

/// After PSK_FINISH the numbers of both directions begin at 0.
pub fn finish_begins_at_zero()
    ensures { FinishBeginsAtZero }
{}

/// After UpdateKey and UpdateAllKeys the numbers of the requests begin at 0.
pub fn update_begins_at_zero()
    ensures { UpdateBeginsAtZero }
{}

/// UpdateAllKeys is answered by record 0 of the new response key, and 1 is the next number of a response.
pub fn update_all_is_answered_at_zero()
    ensures { UpdateAllIsAnsweredAtZero }
{}

/// A clear request that is refused changes nothing that is counted for the connection: phase, negotiation, stored
/// replies, queue, draws, and the large messages in progress.
pub fn refused_clear_keeps_connection()
    ensures { RefusedClearKeepsConnection }
{}

/// At most four sessions of a history that the responder made are established.
pub fn held_are_few()
    ensures { HeldAreFew }
{}

/// A session of a history that the responder made is live in phase Negotiated alone, and its negotiation is that of the
/// connection.
pub fn live_is_under_negotiation()
    ensures { LiveIsUnderNegotiation }
{}

/// A record that was taken is no repeat, its session is live and opens it, its turn is that of its inner message, and
/// the record sent is the one of the turn's answer.
pub fn taken_record_is_opened()
    ensures { TakenRecordIsOpened }
{}

/// No number of a session of a history that the responder made passes 65,536.
pub fn numbers_are_few()
    ensures { NumbersAreFew }
{}

/// GET_CAPABILITIES and its answer settle what both ends can do together.
pub fn capabilities_settle_common()
    ensures { CapabilitiesSettleCommon }
{}

/// NEGOTIATE_ALGORITHMS and its answer settle the choice that the responder made of the offer.
pub fn algorithms_settle_choice()
    ensures { AlgorithmsSettleChoice }
{}

/// In a history that the responder made, from phase Capable on, the requester takes messages of at least 42 bytes, and
/// its max size is at least its transfer size.
pub fn sizes_are_known()
    ensures { SizesAreKnown }
{}
