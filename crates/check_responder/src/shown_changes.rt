use crate::JudgedResponder;
use crate::clear_answers::id_begun;
use crate::judged_responder::response_of;
use crate::record_answers::is_repeated;
use check_laws::{is_clear, rest_of};
use responder_core::record_id;
use spdm_grammar::SessionView;
use spdm_grammar::names::SESSION_PLACES;

// What a right answer shows of what it changes of the table of sessions.
impl JudgedResponder {
    ghost use Rattle.std.specs.Prelude.{◌≡◌, ◌<◌, ◌^◌, IsSome, drop};
    ghost use Rattle.check_laws.specs.Changes.{views_in};
    ghost use Rattle.check_laws.specs.DropsShown.{id_begun, response_of};
    ghost use Rattle.check_laws.specs.KeptChanges.{begun_shown, taken_shown};
    ghost use Rattle.responder_machine.specs.BoundLaws.{messages_of};
    ghost use Rattle.responder_machine.specs.History.{History};
    ghost use Rattle.responder_machine.specs.Setup.{RspSetup};
    ghost use Rattle.check_responder.specs.JudgedResponder.{IsAnswerer};

    /// The RspSessionID of the session that an answer begins, if it begins one.
    pub fn begun(&self, tag: u8, body: &[u8], answer: &[u8]) -> Option<u16>
        ensures shown { (r : RspSetup) (h : History) → IsAnswerer self.now r h
            → result ≡ begun_shown h tag body.now answer.now }
        ensures response { IsSome result → IsSome (id_begun (response_of (drop 1 answer.now))) }
    {
        if !is_clear(body) {
            return None;
        }
        if self.connection.is_repeat(tag, rest_of(body)) {
            return None;
        }
        id_begun(response_of(rest_of(answer)))
    }

    /// The RspSessionID in a record that its session took, if an answer shows that it did.
    pub fn taken(&self, body: &[u8], answer: &[u8]) -> Option<u16>
        ensures { (r : RspSetup) (h : History) → IsAnswerer self.now r h
            → result ≡ taken_shown h body.now answer.now }
    {
        if is_clear(body) {
            return None;
        }
        if is_clear(answer) {
            return None;
        }
        let sealed = rest_of(body);
        if is_repeated(&self.connection, sealed) {
            return None;
        }
        Some(record_id(sealed).rsp)
    }

    /// The sessions with the RspSessionIDs from 1 to 4, where they are live. Requires fewer than 2^64 received
    /// messages.
    pub fn views(&self) -> [Option<SessionView>; SESSION_PLACES]
        ensures { (r : RspSetup) (h : History) → IsAnswerer self.now r h → messages_of h < 2 ^ 64
            → result ≡ views_in h }
    {
        [
            self.connection.view(1),
            self.connection.view(2),
            self.connection.view(3),
            self.connection.view(4),
        ]
    }
}
