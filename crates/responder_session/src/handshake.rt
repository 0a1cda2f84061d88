ghost use Rattle.spdm_grammar.specs.declared.names.TheConstants.{MAX_PADDING};

use crate::{ExchangeParts, ResponseValues, RspSession, RspTook, Work};
use session_keys::SessionTerms;
use spdm_basis::{Frame, Psk};
use spdm_grammar::{SessionView, Stage};
use transcript::Vca;

/// A session at the responder that awaits PSK_FINISH.
#[derive(Drop)]
pub struct RspHandshake {
    pub(crate) session: RspSession,
}

impl RspHandshake {
    ghost use Rattle.std.specs.Prelude.{◌≡◌, ◌≤◌, [], ℕ, List, length};
    ghost use Rattle.responder_machine.specs.Answer.{Free};
    ghost use Rattle.responder_machine.specs.Heard.{view_of};
    ghost use Rattle.responder_machine.specs.Session.{Events};
    ghost use Rattle.responder_machine.specs.Setup.{RspSetup};
    ghost use Rattle.responder_machine.specs.SizeLaws.{HasSizes};
    ghost use Rattle.session_keys.specs.Terms.{AreTermsOf};
    ghost use Rattle.spdm_basis.specs.Sizes.{hash_size};
    ghost use Rattle.spdm_machine.specs.Terms.{terms_of};
    ghost use Rattle.transcript.specs.Transcripts.{Negotiation, vca_of};
    ghost use Rattle.responder_session.specs.Exchange.{AreParts, answer_for, begun};
    ghost use Rattle.responder_session.specs.Handshake.{StandsFor};
    ghost use Rattle.responder_session.specs.Took.{IsTook};

    /// Creates the session of a PSK_EXCHANGE, after the messages of a negotiation and under its terms; overwrites `out`
    /// with the complete PSK_EXCHANGE_RSP with these parts (DSP0274). The context is as long as the hash.
    pub fn start(
        vca: &Vca,
        psk: &Psk,
        exchange: &[u8],
        terms: SessionTerms,
        parts: &ExchangeParts<'_>,
        out: &mut Frame,
    ) -> RspHandshake
        requires parts { AreParts terms parts.now }
        requires context { length parts.now.context.now ≡ hash_size terms.choice.hash }
        ensures answer { (n : Negotiation) → vca.now ≡ vca_of n → AreTermsOf terms n exchange.now
            → out.new ≡ answer_for psk.now n exchange.now parts.now }
        ensures stands { (r : RspSetup) (n : Negotiation) → r.psk ≡ psk.now
            → HasSizes r (terms_of n).common → vca.now ≡ vca_of n → AreTermsOf terms n exchange.now
            → StandsFor result r (begun n exchange.now out.new) }
    {
        RspHandshake {
            session: RspSession::start(vca, psk, exchange, terms, parts, out),
        }
    }

    /// A view of the session.
    pub fn view(&self) -> SessionView
        ensures { (r : RspSetup) (s : Events) → StandsFor self.now r s → result ≡ view_of s }
    {
        self.session.kept.view(Stage::Handshake)
    }

    /// Handles a record from the requester; its response has no padding.
    pub fn take(self, sealed: &[u8]) -> RspTook
        ensures { (r : RspSetup) (s : Events) (f : Free) → f.pad ≡ [] → StandsFor self r s
            → IsTook r s f sealed.now result }
    {
        self.take_with(sealed, &[])
    }

    /// Same as `take`, with this padding for the response, of at most 16 bytes.
    pub fn take_with(mut self, sealed: &[u8], pad: &[u8]) -> RspTook
        requires { length pad.now ≤ MAX_PADDING }
        ensures { (r : RspSetup) (s : Events) (f : Free) → f.pad ≡ pad.now → StandsFor self r s
            → IsTook r s f sealed.now result }
    {
        let free = ResponseValues::padding(pad);
        let told = self
            .session
            .take_with(sealed, None, &free, &mut Work::new());
        RspTook::of(self.session, told)
    }
}
