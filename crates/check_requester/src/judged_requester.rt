ghost use Rattle.spdm_grammar.specs.declared.names.TheConstants.{MAX_BODY_SIZE};

use crate::judged_setup::JudgedSetup;
use crate::owed_messages::sends_owed;
use psk_session::InnerPair;
use requester_core::{Body, RequesterCore, Setup};
use spdm_basis::{OutOfMemory, Psk, RecordFrame};
use std::alloc::Global;

/// A requester of a capture, while no large message is in progress: what it was told and took, and whether it owes a
/// message. It judges bodies by the requester's own code. Allocates only when constructed (read, not proved).
#[derive(Drop)]
pub struct JudgedRequester {
    pub(crate) setup: JudgedSetup,
    pub(crate) asking: RequesterCore,
    pub(crate) owes: bool,
    // Room for the body that the requester sends, for the inner messages of a record that came and of its own, and for
    // two that are compared.
    pub(crate) room: Body,
    pub(crate) inner: RecordFrame,
    pub(crate) own: RecordFrame,
    pub(crate) pair: InnerPair,
}

impl JudgedRequester {
    ghost use Rattle.std.specs.Prelude.{◌≡◌, ◌≤◌, ◌<◌, ◌-◌, ◌^◌, ℕ, List, None, IfOk, length};
    ghost use Rattle.requester_core.specs.Setup.{IsSetUp};
    ghost use Rattle.requester_machine.specs.History.{outstanding};
    ghost use Rattle.requester_machine.specs.May as may;
    ghost use Rattle.requester_machine.specs.Setup.{ReqSetup};
    ghost use Rattle.check_requester.specs.JudgedRequester.{Carries, IsAsker, IsGoneOn};
    ghost use Rattle.check_laws.specs.Changes.{session_in};
    ghost use Rattle.check_laws.specs.Keeping.{Kept, kept_of};
    ghost use Rattle.capture_machine.specs.Rounds.{new_dialogue};
    ghost use Rattle.world_machine.specs.Setup.{Configuration};

    /// A requester that is set up so, where nothing came yet.
    pub fn new(alloc: Global, setup: &Setup<'_>, psk: &Psk) -> Result<JudgedRequester, OutOfMemory>
        ensures { (q : ReqSetup) → IsSetUp setup.now q → may.IsSetUp q → q.psk ≡ psk.now
            → IfOk result (λ asker. IsAsker asker q (kept_of (new_dialogue q))) }
    {
        let kept = JudgedSetup::new(alloc, setup, psk)?;
        let asking = RequesterCore::new(alloc, setup.max)?;
        Ok(JudgedRequester {
            setup: kept,
            asking,
            owes: false,
            room: Body::new(),
            inner: RecordFrame::new(),
            own: RecordFrame::new(),
            pair: InnerPair::new(),
        })
    }

    /// Takes a body of at most 4,161 bytes as the message that is owed: whether it is that, with some padding where it
    /// is a record. Else nothing changes.
    pub fn goes_on(&mut self, body: &[u8]) -> bool
        ensures { (w : Configuration) (q : ReqSetup) (older : List (List ℕ)) (k : Kept)
            → Carries w q older k → length older < 2 ^ 64 - 1 → length body.now ≤ MAX_BODY_SIZE
            → IsAsker self.old q k → IsGoneOn q k body.now result self.new }
    {
        if !self.owes {
            return false;
        }
        if !sends_owed(
            &mut self.asking,
            &self.setup,
            &mut self.room,
            &mut self.pair,
            body,
        ) {
            return false;
        }
        self.owes = false;
        true
    }

    /// The ReqSessionID of the session whose record is outstanding, where nothing is owed; `None` where that is no
    /// record.
    pub fn sent(&self) -> Option<u16>
        ensures { (q : ReqSetup) (k : Kept) → IsAsker self.now q k → k.owed ≡ None
            → result ≡ session_in (outstanding k.requester) }
    {
        self.asking.session_awaited()
    }
}
