ghost use Rattle.spdm_grammar.specs.declared.names.TheConstants.{MAX_BODY_SIZE};
ghost use Rattle.secured_record.specs.declared.TheConstants.{MAX_RECORD_SIZE};

use crate::JudgedRequester;
use crate::owed_messages::write_outstanding;
use crate::request_reasons::{is_finish_apart, opens_before, opens_next};
use crate::sealed_commands::sends_opened;
use crate::sending::{connects, connects_instead, sends_command};
use check_laws::{is_clear, is_secured, rest_of};
use spdm_grammar::Why;

// The requests by which a round begins.
impl JudgedRequester {
    ghost use Rattle.std.specs.Prelude.{◌≡◌, ◌≤◌, ◌<◌, ◌-◌, ◌^◌, ℕ, List, None, length, true};
    ghost use Rattle.requester_machine.specs.History.{outstanding};
    ghost use Rattle.requester_machine.specs.Named.{session_named};
    ghost use Rattle.requester_machine.specs.Setup.{ReqSetup};
    ghost use Rattle.spdm_machine.specs.Bodies.{record_body};
    ghost use Rattle.check_requester.specs.Asked.{ComesPlain, IsAskedBy, IsJudged, IsRefusedFor};
    ghost use Rattle.check_requester.specs.JudgedRequester.{Carries, IsAsker};
    ghost use Rattle.check_requester.specs.LargeAsked.{refused_why};
    ghost use Rattle.check_laws.specs.Judged.{why_of};
    ghost use Rattle.check_laws.specs.Keeping.{Kept, restored};
    ghost use Rattle.capture_machine.specs.Difference.{asks_apart};
    ghost use Rattle.capture_machine.specs.Opening.{opens_asking};
    ghost use Rattle.world_machine.specs.Setup.{Configuration};

    /// Takes a body of at most 4,161 bytes as a request that begins a round whole: whether it does, as the message that
    /// is owed, as GET_VERSION, or as that of a command. Else nothing is said of what is kept.
    pub fn asks(&mut self, body: &[u8]) -> bool
        ensures { (w : Configuration) (q : ReqSetup) (older : List (List ℕ)) (k : Kept)
            → Carries w q older k → length older < 2 ^ 64 - 1 → length body.now ≤ MAX_BODY_SIZE
            → IsAsker self.old q k → IsAskedBy q k body.now result self.new }
    {
        if self.goes_on(body) {
            return true;
        }
        if self.owes {
            self.owes = false;
            return connects_instead(&mut self.asking, &mut self.room, body);
        }
        if write_outstanding(&mut self.asking, &self.setup, &mut self.room) {
            return connects(&mut self.asking, &self.setup, &mut self.room, body);
        }
        sends_command(
            &mut self.asking,
            &self.setup,
            &mut self.room,
            &mut self.inner,
            &mut self.pair,
            body,
        )
    }

    // Whether a record is apart from the PSK_FINISH that is owed, if one is.
    fn is_apart(&mut self, body: &[u8]) -> bool
        ensures apart { (w : Configuration) (q : ReqSetup) (older : List (List ℕ)) (k : Kept)
            → Carries w q older k → length older < 2 ^ 64 - 1 → IsAsker self.old q k
            → result ≡ asks_apart (restored k) body.now }
        ensures kept { (w : Configuration) (q : ReqSetup) (older : List (List ℕ)) (k : Kept)
            → Carries w q older k → length older < 2 ^ 64 - 1 → IsAsker self.old q k
            → IsAsker self.new q k }
    {
        if !is_secured(body) {
            return false;
        }
        if !self.owes {
            return false;
        }
        let _ = write_outstanding(&mut self.asking, &self.setup, &mut self.room);
        is_finish_apart(
            &self.asking,
            rest_of(self.room.as_slice()),
            &mut self.own,
            &mut self.inner,
            rest_of(body),
        )
    }

    // Whether a record opens, in place of the message that is owed, if one is.
    fn opens(&mut self, sealed: &[u8]) -> bool
        ensures opens { (w : Configuration) (q : ReqSetup) (older : List (List ℕ)) (k : Kept)
            → Carries w q older k → length older < 2 ^ 64 - 1 → IsAsker self.old q k
            → result ≡ opens_asking q (session_named k.requester sealed.now) sealed.now }
        ensures kept { (q : ReqSetup) (k : Kept) → IsAsker self.old q k → IsAsker self.new q k }
    {
        if self.owes {
            opens_before(&self.asking, &mut self.inner, sealed)
        } else {
            opens_next(&self.asking, &mut self.inner, sealed)
        }
    }

    /// Why a body is refused as a request in turn, whatever it is, and whatever its verify data are.
    pub fn why_other(&mut self, body: &[u8]) -> Why
        ensures why { (w : Configuration) (q : ReqSetup) (older : List (List ℕ)) (k : Kept)
            → Carries w q older k → length older < 2 ^ 64 - 1 → IsAsker self.old q k
            → why_of result ≡ refused_why q k.requester body.now }
        ensures kept { (w : Configuration) (q : ReqSetup) (older : List (List ℕ)) (k : Kept)
            → Carries w q older k → length older < 2 ^ 64 - 1 → IsAsker self.old q k
            → IsAsker self.new q k }
    {
        if is_clear(body) {
            return Why::BadRequest;
        }
        if self.opens(rest_of(body)) {
            Why::BadRequest
        } else {
            Why::BadRecord
        }
    }

    /// Why a body is refused as a request in turn, whatever it is.
    pub fn why(&mut self, body: &[u8]) -> Why
        ensures why { (w : Configuration) (q : ReqSetup) (older : List (List ℕ)) (k : Kept)
            → Carries w q older k → length older < 2 ^ 64 - 1 → IsAsker self.old q k
            → IsRefusedFor (restored k) body.now (why_of result) }
        ensures kept { (w : Configuration) (q : ReqSetup) (older : List (List ℕ)) (k : Kept)
            → Carries w q older k → length older < 2 ^ 64 - 1 → IsAsker self.old q k
            → IsAsker self.new q k }
    {
        if self.is_apart(body) {
            return Why::BadVerify;
        }
        self.why_other(body)
    }

    // Whether a body is a record, where nothing is owed and nothing outstanding.
    fn comes_plain(&mut self, body: &[u8]) -> bool
        ensures plain { (w : Configuration) (q : ReqSetup) (older : List (List ℕ)) (k : Kept)
            → Carries w q older k → length older < 2 ^ 64 - 1 → IsAsker self.old q k
            → result ≡ true → ComesPlain k body.now }
        ensures kept { (w : Configuration) (q : ReqSetup) (older : List (List ℕ)) (k : Kept)
            → Carries w q older k → length older < 2 ^ 64 - 1 → IsAsker self.old q k
            → IsAsker self.new q k }
    {
        if !is_secured(body) {
            return false;
        }
        if self.owes {
            return false;
        }
        !write_outstanding(&mut self.asking, &self.setup, &mut self.room)
    }

    // Judges a record that comes so, which is opened once: what it opens to tells the command, and where it does not
    // open, none sends it.
    fn judge_record(&mut self, sealed: &[u8]) -> Result<(), Why>
        ensures { (w : Configuration) (q : ReqSetup) (older : List (List ℕ)) (k : Kept)
            → Carries w q older k → length older < 2 ^ 64 - 1 → length sealed.now ≤ MAX_RECORD_SIZE
            → IsAsker self.old q k → k.owed ≡ None → outstanding k.requester ≡ None
            → IsJudged q k (record_body sealed.now) result self.new }
    {
        if !opens_next(&self.asking, &mut self.inner, sealed) {
            return Err(Why::BadRecord);
        }
        if sends_opened(
            &mut self.asking,
            &self.setup,
            &mut self.room,
            &self.inner,
            &mut self.pair,
            sealed,
        ) {
            Ok(())
        } else {
            Err(Why::BadRequest)
        }
    }

    /// Judges a body of at most 4,161 bytes as a request in turn that is no copy: it begins a round whole, or why it is
    /// refused. Where it is refused, nothing is said of what is kept.
    pub fn judge(&mut self, body: &[u8]) -> Result<(), Why>
        ensures { (w : Configuration) (q : ReqSetup) (older : List (List ℕ)) (k : Kept)
            → Carries w q older k → length older < 2 ^ 64 - 1 → length body.now ≤ MAX_BODY_SIZE
            → IsAsker self.old q k → IsJudged q k body.now result self.new }
    {
        if self.comes_plain(body) {
            return self.judge_record(rest_of(body));
        }
        let why = self.why(body);
        if self.asks(body) { Ok(()) } else { Err(why) }
    }
}
