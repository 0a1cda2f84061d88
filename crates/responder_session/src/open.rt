ghost use Rattle.spdm_grammar.specs.declared.names.TheConstants.{MAX_APP_DATA_LEN, MAX_OPAQUE_LEN, MAX_PADDING};

use crate::{AppQueue, ResponseValues, RspSession, RspTook, Work};
use hmac_hkdf::Drawn;
use measurements::Inventory;
use spdm_grammar::{SessionView, Stage};

/// A session at the responder that is open.
#[derive(Drop)]
pub struct RspOpen {
    pub(crate) session: RspSession,
}

impl RspOpen {
    ghost use Rattle.std.specs.Prelude.{◌≡◌, ◌≤◌, ◌<◌, ◌-◌, ◌^◌, ℕ, List, length};
    ghost use Rattle.responder_machine.specs.Answer.{Free};
    ghost use Rattle.responder_machine.specs.Heard.{view_of};
    ghost use Rattle.responder_machine.specs.Session.{Events, taken_of};
    ghost use Rattle.responder_machine.specs.Setup.{RspSetup, inventory_of};
    ghost use Rattle.responder_session.specs.RequestEffects.{AreFree};
    ghost use Rattle.responder_session.specs.Open.{StandsFor};
    ghost use Rattle.responder_session.specs.Queue.{IsChosen, queue_after};
    ghost use Rattle.responder_session.specs.Took.{IsTook};

    /// A view of the session. Requires fewer than 2^64 received application messages.
    pub fn view(&self) -> SessionView
        ensures request_epoch { result.request_epoch ≡ self.now.session.kept.request.epoch }
        ensures response_epoch { result.response_epoch ≡ self.now.session.kept.response.epoch }
        ensures shown { (r : RspSetup) (s : Events) → StandsFor self.now r s
            → taken_of s < 2 ^ 64 → result ≡ view_of s }
    {
        self.session.kept.view(Stage::Open)
    }

    /// Handles a record from the requester, whose response has these free values. The nonce has 32 bytes, the opaque
    /// data and the reply at most 1,024, and the padding at most 16; requires both epochs below 2^64 - 1.
    pub fn take_with(
        mut self,
        sealed: &[u8],
        inventory: &Inventory,
        free: &ResponseValues<'_>,
    ) -> RspTook
        requires request_epoch { self.session.kept.request.epoch < 2 ^ 64 - 1 }
        requires response_epoch { self.session.kept.response.epoch < 2 ^ 64 - 1 }
        requires nonce { length free.now.nonce.now ≡ 32 }
        requires opaque { length free.now.opaque.now ≤ MAX_OPAQUE_LEN }
        requires reply { length free.now.reply.now ≤ MAX_APP_DATA_LEN }
        requires pad { length free.now.pad.now ≤ MAX_PADDING }
        ensures { (r : RspSetup) (s : Events) (f : Free) → inventory_of r ≡ inventory.now
            → AreFree free.now f → StandsFor self r s → IsTook r s f sealed.now result }
    {
        let told = self
            .session
            .take_with(sealed, Some(inventory), free, &mut Work::new());
        RspTook::of(self.session, told)
    }

    /// Handles a record from the requester with this project's choice of free values: the nonce is the draw, the opaque
    /// data and the padding are empty, handles are consecutive, and application data is answered by the first reply of
    /// the queue, which is removed. Requires both epochs below 2^64 - 1.
    pub fn take(
        self,
        sealed: &[u8],
        draw: &Drawn,
        inventory: &Inventory,
        app: &mut AppQueue,
    ) -> RspTook
        requires request_epoch { self.session.kept.request.epoch < 2 ^ 64 - 1 }
        requires response_epoch { self.session.kept.response.epoch < 2 ^ 64 - 1 }
        ensures took { (r : RspSetup) (s : Events) (f : Free) → inventory_of r ≡ inventory.now
            → IsChosen draw.now app.old s f → StandsFor self r s → IsTook r s f sealed.now result }
        ensures app { app.new ≡ queue_after result app.old }
    {
        let free = ResponseValues {
            nonce: &draw.bytes,
            opaque: &[],
            handle: self.session.next_handle(),
            reply: app.first(),
            pad: &[],
        };
        let took = self.take_with(sealed, inventory, &free);
        if took.takes_data() {
            app.advance();
        }
        took
    }

    /// The application data received last; empty before the first.
    pub fn data(&self) -> &[u8]
        ensures { result.now ≡ self.now.session.bytes }
    {
        self.session.data()
    }
}
