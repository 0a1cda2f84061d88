/// The response to a request in a session.
#[derive(Clone, Copy, Debug, PartialEq, Eq)]
pub enum Reply {
    /// Application data.
    Data,
    /// HEARTBEAT_ACK.
    Alive,
    /// KEY_UPDATE_ACK to the VerifyNewKey that followed the update.
    Updated,
    /// MEASUREMENTS: the number of all blocks for operation 0, else that of the blocks in the record.
    Measured(u8),
    /// ERROR of this code; the session stays open.
    Refused(u8),
}

impl Reply {
    ghost use Rattle.std.specs.Prelude.{◌≡◌, ℕ, List};
    ghost use Rattle.requester_machine.specs.Session.{is_data};
    ghost use Rattle.psk_session.specs.Verdict.{effect_of};

    // Whether it is application data.
    pub(crate) fn is_data(self) -> bool
        ensures { (answer : List ℕ) (op : ℕ) → result ≡ is_data (effect_of answer op self) }
    {
        matches!(self, Reply::Data)
    }
}
