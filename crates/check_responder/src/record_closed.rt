ghost use Rattle.std.specs.Prelude.{◌≡◌, ◌&&◌, ◌↔◌, true};
ghost use Rattle.responder_core.specs.Connected.{StandsFor};
ghost use Rattle.responder_core.specs.Sessions.{body_by};
ghost use Rattle.responder_machine.specs.History.{History};
ghost use Rattle.responder_machine.specs.Session.{id_in_record, session_of};
ghost use Rattle.responder_machine.specs.Setup.{RspSetup};
ghost use Rattle.spdm_machine.specs.Bodies.{clear_body};
ghost use Rattle.check_laws.specs.DropsShown.{may_be_dropped};
ghost use Rattle.capture_machine.specs.CapturedAnswers.{belongs_to};

use crate::JudgedResponder;
use crate::clear_answers::blocks_are_few;
use crate::record_answers::least_free;
use responder_core::{Connection, Setup, record_id};
use session_keys::same_bytes;
use spdm_basis::RecordFrame;
use spdm_grammar::Heard;

// Whether this is sent in the clear, by what is told.
fn is_refused(heard: Heard, out: &[u8], reply: &[u8]) -> bool
    ensures { (result ≡ true) ↔ (body_by heard out.now ≡ clear_body reply.now) }
{
    match heard {
        Heard::Unopened => same_bytes(out, reply),
        _ => false,
    }
}

// Whether an answer in the clear to this record shows that its session was dropped.
fn shows_drop(connection: &Connection, request: &[u8]) -> bool
    ensures { (r : RspSetup) (h : History) → StandsFor connection.now r h
        → result ≡ (belongs_to r (session_of (id_in_record request.now) h) request.now
        && may_be_dropped h (id_in_record request.now)) }
{
    let mut inner = RecordFrame::new();
    let belongs = connection.belongs(request, &mut inner);
    let timed = connection.is_timed(record_id(request).rsp);
    belongs && timed
}

impl JudgedResponder {
    ghost use Rattle.std.specs.Prelude.{◌≡◌, ◌<◌, ◌-◌, ◌^◌, ◌↔◌, true, ℕ};
    ghost use Rattle.responder_core.specs.Setup.{IsSetUp};
    ghost use Rattle.responder_machine.specs.BoundLaws.{messages_of};
    ghost use Rattle.responder_machine.specs.History.{History};
    ghost use Rattle.responder_machine.specs.May.{with_dropped};
    ghost use Rattle.responder_machine.specs.Place.{session_place};
    ghost use Rattle.responder_machine.specs.Responder.{after, body_of, on_record};
    ghost use Rattle.responder_machine.specs.Session.{id_in_record, session_of};
    ghost use Rattle.responder_machine.specs.Setup.{RspSetup};
    ghost use Rattle.spdm_machine.specs.Bodies.{clear_body, record_body};
    ghost use Rattle.check_responder.specs.JudgedResponder.{IsAnswerer, history_shown};
    ghost use Rattle.check_laws.specs.AnswersShown.{least_values};
    ghost use Rattle.check_laws.specs.DropsShown.{IsShownAnswer};
    ghost use Rattle.check_responder.specs.ShownBy.{closed_drops};
    ghost use Rattle.capture_machine.specs.Rounds.{no_draw};

    // The session that an answer in the clear to this record shows as dropped is gone.
    fn drop_closed(&mut self, request: &[u8])
        ensures { (r : RspSetup) (h : History) → IsAnswerer self.old r h
            → IsAnswerer self.new r (with_dropped h (closed_drops r h request.now)) }
    {
        if shows_drop(&self.connection, request) {
            self.connection.expire(record_id(request).rsp);
        }
    }

    // Whether a record is answered in the clear so.
    fn refuses(&mut self, setup: &Setup<'_>, request: &[u8], reply: &[u8]) -> bool
        ensures told { (r : RspSetup) (h : History) (tag : ℕ) → IsSetUp setup.now r
            → IsAnswerer self.old r h → messages_of h < 2 ^ 64 - 1 → (result ≡ true) ↔ (body_of
            (on_record r h tag request.now (least_values h (session_place
            (session_of (id_in_record request.now) h))) no_draw) ≡ clear_body reply.now) }
        ensures stands { (r : RspSetup) (h : History) (tag : ℕ) → IsSetUp setup.now r
            → IsAnswerer self.old r h → messages_of h < 2 ^ 64 - 1
            → IsAnswerer self.new r (after h (on_record r h tag request.now (least_values h
            (session_place (session_of (id_in_record request.now) h))) no_draw)) }
    {
        let free = least_free();
        let heard = self
            .connection
            .on_record(setup, request, &free, &mut self.work, &mut self.record);
        is_refused(heard, self.record.as_slice(), reply)
    }

    /// Whether a record is answered in the clear so, by what that shows. Requires fewer than 2^64 - 1 received
    /// messages. After an answer that is refused nothing is kept.
    pub fn answers_closed(&mut self, setup: &Setup<'_>, request: &[u8], reply: &[u8]) -> bool
        ensures told { (r : RspSetup) (h : History) (tag : ℕ) → IsSetUp setup.now r
            → IsAnswerer self.old r h → messages_of h < 2 ^ 64 - 1
            → (result ≡ true) ↔ IsShownAnswer r h tag (record_body request.now)
            (clear_body reply.now) }
        ensures stands { (r : RspSetup) (h : History) (tag : ℕ) → IsSetUp setup.now r
            → IsAnswerer self.old r h → messages_of h < 2 ^ 64 - 1 → result ≡ true
            → IsAnswerer self.new r (history_shown r h tag (record_body request.now)
            (clear_body reply.now)) }
    {
        blocks_are_few(setup.inventory);
        self.drop_closed(request);
        self.refuses(setup, request, reply)
    }
}
