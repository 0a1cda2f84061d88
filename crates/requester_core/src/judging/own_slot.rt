use crate::Slot;
use psk_session::InnerPair;
use spdm_basis::{RecordFault, RecordFrame};

// What a session sealed itself; used only by the checker.
impl Slot {
    ghost use Rattle.std.specs.Prelude.{◌≡◌, ◌≤◌, ℕ, List, false, true};
    ghost use Rattle.requester_core.specs.OwnRecords.{IsSlotRepadded};
    ghost use Rattle.requester_core.specs.Slot.{IsSlotOf};
    ghost use Rattle.psk_session.specs.Course.{with_asked};
    ghost use Rattle.psk_session.specs.OwnRecords.{IsOwnOpened};
    ghost use Rattle.requester_machine.specs.Message as message;
    ghost use Rattle.requester_machine.specs.Session.{Steps, is_accepted, request_next};

    // Opens a record as the next one that the session would send, which took PSK_EXCHANGE_RSP.
    pub(crate) fn open_next(&self, sealed: &[u8], out: &mut RecordFrame) -> Result<(), RecordFault>
        ensures { (psk : List ℕ) (s : Steps) → IsSlotOf self.now psk s → is_accepted s ≡ true
            → request_next s ≤ 65535 → IsOwnOpened psk s sealed.now result out.new }
    {
        match self {
            Slot::Empty => Err(RecordFault::KeySpent),
            Slot::Opening(_) => Err(RecordFault::KeySpent),
            Slot::Finishing(state) => state.open_next(sealed, out),
            Slot::Live(session) => session.open_next(sealed, out),
        }
    }

    // Opens a record in place of the one that the session sent last and whose answer it awaits.
    pub(crate) fn open_last(&self, sealed: &[u8], out: &mut RecordFrame) -> Result<(), RecordFault>
        ensures { (psk : List ℕ) (s : Steps) (a : message.Ask) (inner pad : List ℕ)
            → IsSlotOf self.now psk (with_asked psk s a inner pad)
            → IsOwnOpened psk s sealed.now result out.new }
    {
        match self {
            Slot::Empty => Err(RecordFault::KeySpent),
            Slot::Opening(_) => Err(RecordFault::KeySpent),
            Slot::Finishing(state) => state.open_last(sealed, out),
            Slot::Live(session) => session.open_last(sealed, out),
        }
    }

    // Takes bytes as that record: whether they are that with a padding of at most 16 bytes.
    pub(crate) fn take_padded(&mut self, sealed: &[u8], pair: &mut InnerPair) -> bool
        ensures repadded { (psk : List ℕ) (s : Steps) (a : message.Ask) (inner pad : List ℕ)
            → IsSlotOf self.old psk (with_asked psk s a inner pad)
            → IsSlotRepadded psk s a inner sealed.now self.new result }
        ensures unchanged { result ≡ false → self.new ≡ self.old }
    {
        match self {
            Slot::Empty => false,
            Slot::Opening(_) => false,
            Slot::Finishing(state) => state.take_padded(sealed, pair),
            Slot::Live(session) => session.take_padded(sealed, pair),
        }
    }
}
