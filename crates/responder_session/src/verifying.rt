ghost use Rattle.spdm_grammar.specs.declared.names.TheConstants.{MAX_PADDING};

use crate::{ResponseValues, RspSession, RspTook, Work};
use spdm_grammar::{SessionView, Stage};

/// A session at the responder whose keys were updated, and that awaits VerifyNewKey.
#[derive(Drop)]
pub struct RspVerifying {
    pub(crate) session: RspSession,
}

impl RspVerifying {
    ghost use Rattle.std.specs.Prelude.{◌≡◌, ◌≤◌, ◌<◌, ◌^◌, [], ℕ, List, length};
    ghost use Rattle.responder_machine.specs.Answer.{Free};
    ghost use Rattle.responder_machine.specs.Heard.{view_of};
    ghost use Rattle.responder_machine.specs.Session.{Events, taken_of};
    ghost use Rattle.responder_machine.specs.Setup.{RspSetup};
    ghost use Rattle.responder_session.specs.Took.{IsTook};
    ghost use Rattle.responder_session.specs.Verifying.{StandsFor};

    /// A view of the session, where fewer than 2^64 application messages were received.
    pub fn view(&self) -> SessionView
        ensures { (r : RspSetup) (s : Events) → StandsFor self.now r s → taken_of s < 2 ^ 64
            → result ≡ view_of s }
    {
        self.session.kept.view(Stage::Verifying)
    }

    /// Handles a record from the requester; its response has no padding.
    pub fn take(self, sealed: &[u8]) -> RspTook
        ensures { (r : RspSetup) (s : Events) (f : Free) → f.pad ≡ [] → StandsFor self r s
            → IsTook r s f sealed.now result }
    {
        self.take_with(sealed, &[])
    }

    /// Same as `take`, with this padding for the response, of at most 16 bytes.
    pub fn take_with(mut self, sealed: &[u8], pad: &[u8]) -> RspTook
        requires { length pad.now ≤ MAX_PADDING }
        ensures { (r : RspSetup) (s : Events) (f : Free) → f.pad ≡ pad.now → StandsFor self r s
            → IsTook r s f sealed.now result }
    {
        let free = ResponseValues::padding(pad);
        let told = self
            .session
            .take_with(sealed, None, &free, &mut Work::new());
        RspTook::of(self.session, told)
    }
}
