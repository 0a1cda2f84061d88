ghost use Rattle.std.specs.Prelude.{◌≡◌};
ghost use Rattle.responder_machine.specs.NewData.{is_app_data};

use crate::RspSession;
use session_keys::{APP_DATA, behind_type, byte_at};
use spdm_basis::RecordFrame;
use spdm_grammar::Stage;
use spdm_grammar::names::MAX_APP_DATA_LEN;

// Whether an inner message is application data that a session in this stage takes.
fn is_app_data(stage: Stage, inner: &[u8]) -> bool
    ensures { result ≡ is_app_data stage inner.now }
{
    byte_at(inner, 0) == APP_DATA && stage == Stage::Open && inner.len() <= MAX_APP_DATA_LEN + 1
}

impl RspSession {
    ghost use Rattle.std.specs.Prelude.{◌≡◌, ◌≤◌, ◌+◌, ℕ, List, true, Some, None, IfSome, MatchOption, length};
    ghost use Rattle.responder_machine.specs.NewData.{brings_data, new_data};
    ghost use Rattle.responder_machine.specs.Records.{opened};
    ghost use Rattle.responder_machine.specs.Session.{Events};
    ghost use Rattle.responder_session.specs.Session.{IsEnded, StandsFor};
    ghost use Rattle.spdm_grammar.specs.declared.names.TheConstants.{MAX_APP_DATA_LEN};

    // Whether a record would bring new application data; then its inner message overwrites `out`.
    fn brings_data(&self, sealed: &[u8], out: &mut RecordFrame) -> bool
        ensures value { (psk : List ℕ) (s : Events) → StandsFor self.now psk s
            → result ≡ brings_data psk s sealed.now }
        ensures inner { (psk : List ℕ) (s : Events) → StandsFor self.now psk s → result ≡ true
            → out.new ≡ opened psk s sealed.now }
        ensures fits { result ≡ true → length out.new ≤ MAX_APP_DATA_LEN + 1 }
    {
        if self.kept.last.repeats(sealed) {
            return false;
        }
        let Some(stage) = self.stage else {
            return false;
        };
        match self.kept.open(sealed, out) {
            Ok(()) => is_app_data(stage, out.as_slice()),
            Err(_) => false,
        }
    }

    /// The application data that a record would bring as new, at most 1,024 bytes, held in `out`; `None` exactly where
    /// `take_with` would take no new application data: the record repeats the last one, does not open, or has another
    /// message, and always at an ended session. The session does not change.
    pub fn new_data<'a>(&self, sealed: &[u8], out: &'a mut RecordFrame) -> Option<&'a [u8]>
        ensures value { (psk : List ℕ) (s : Events) → StandsFor self.now psk s
            → MatchOption result (new_data psk s sealed.now ≡ None)
            (λ bytes. new_data psk s sealed.now ≡ Some bytes.now) }
        ensures fits { IfSome result (λ bytes. length bytes.now ≤ MAX_APP_DATA_LEN) }
    {
        if self.brings_data(sealed, out) {
            Some(behind_type(out.as_slice()))
        } else {
            None
        }
    }
}
