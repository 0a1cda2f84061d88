ghost use Rattle.std.specs.Prelude.{◌≡◌, ◌∷◌, ℕ, List, Bool, None, Some, false, true, is_some};
ghost use Rattle.std.specs.Option.{option_or};
ghost use Rattle.requester_machine.specs.Asking.{asks};
ghost use Rattle.requester_machine.specs.Asking.Outcome.{Adds};
ghost use Rattle.requester_machine.specs.Commands.{Free, command_fault, is_negotiated};
ghost use Rattle.requester_machine.specs.Hearing.{hears};
ghost use Rattle.requester_machine.specs.History.{Entry, History, asks_session, outstanding, phase_of, sent_in};
ghost use Rattle.requester_machine.specs.History.Entry.{Told};
ghost use Rattle.requester_machine.specs.Message.{Ask, Command, Sent};
ghost use Rattle.requester_machine.specs.Message.Aim.{InSession};
ghost use Rattle.requester_machine.specs.Setup.{ReqSetup};
ghost use Rattle.requester_machine.specs.UnderWay.{HasSizes};
ghost use Rattle.spdm_machine.specs.Keys.{Draw};
ghost use Rattle.requester_core.specs.InSession.{SendsRecord, Settles, brought_by, session_fault};
ghost use Rattle.requester_core.specs.ClearState.{Shows, StandsFor};

use crate::ClearState;
use spdm_grammar::CommandFault;

impl ClearState {
    /// The first fault of a command that asks something of a session, as far as it is seen without the session: `Busy`,
    /// then `NotConnected`.
    #[tactic(auto, unfolding(requester_machine::specs::Commands::command_fault))]
    pub fn session_fault(&self) -> Option<CommandFault>
        ensures fault { (q : ReqSetup) (h : History) (command : Command) (f : Free)
            → Shows self.now h → asks_session command ≡ true
            → command_fault false q h command f ≡ option_or result (session_fault q h command f) }
        ensures idle { (h : History) → Shows self.now h → result ≡ None
            → is_some (outstanding h) ≡ false }
        ensures connected { (h : History) → Shows self.now h → result ≡ None
            → is_negotiated (phase_of h) ≡ true }
    {
        if self.is_busy() {
            return Some(CommandFault::Busy);
        }
        if !self.is_connected() {
            return Some(CommandFault::NotConnected);
        }
        None
    }

    /// Registers a sent record of the session with this ReqSessionID: on a command, PSK_EXCHANGE_RSP or an accepted
    /// record. Returns its tag.
    pub fn send_record(&mut self, id: u16) -> u8
        ensures told { (q : ReqSetup) (h : History) (command : Command) (f : Free) (d : Draw)
            (sent : Sent) (ask : Ask) → StandsFor self.old q h
            → asks false q h command f d ≡ Adds (Told command sent d) → sent.aim ≡ InSession id ask
            → SendsRecord q (Told command sent d ∷ h) sent result self.new }
        ensures heard { (q : ReqSetup) (h : History) (owner : Bool) (its_tag : ℕ)
            (body : List ℕ) (f : Free) (d : Draw) (entry : Entry) (sent : Sent) (ask : Ask)
            → StandsFor self.old q h → hears q h owner its_tag body f d ≡ Adds entry
            → sent_in entry ≡ Some sent → sent.aim ≡ InSession id ask
            → SendsRecord q (entry ∷ h) sent result self.new }
    {
        self.outgoing.send_record(id)
    }

    /// Registers an accepted record without data; nothing is outstanding any more.
    pub fn clear_outstanding(&mut self)
        ensures { (q : ReqSetup) (h : History) (owner : Bool) (tag : ℕ) (body : List ℕ) (f : Free)
            (d : Draw) (entry : Entry) → StandsFor self.old q h
            → Settles q h owner tag body f d entry → brought_by entry ≡ None
            → StandsFor self.new q (entry ∷ h) }
    {
        self.outgoing.clear_outstanding();
    }

    /// Registers an accepted record with these bytes, application data or a measurement record; nothing is outstanding
    /// any more.
    pub fn bring(&mut self, bytes: &[u8])
        ensures { (q : ReqSetup) (h : History) (owner : Bool) (tag : ℕ) (body : List ℕ) (f : Free)
            (d : Draw) (entry : Entry) → HasSizes q → StandsFor self.old q h
            → Settles q h owner tag body f d entry → brought_by entry ≡ Some bytes.now
            → StandsFor self.new q (entry ∷ h) }
    {
        self.brought.clear();
        let _ = self.brought.extend(bytes);
        self.outgoing.clear_outstanding();
    }
}
