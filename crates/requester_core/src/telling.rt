ghost use Rattle.std.specs.Prelude.{◌≡◌, ◌≤◌, ◌<◌, ◌^◌, ◌-◌, ◌∷◌, ℕ, None, Some, false, length};
ghost use Rattle.requester_core.specs.Free.{IsFree};
ghost use Rattle.requester_core.specs.Joined.{IsCommanded, IsDone, StandsFor, command_of};
ghost use Rattle.requester_core.specs.Setup.{IsSetUp};
ghost use Rattle.requester_core.specs.ClearState as clear_state;
ghost use Rattle.psk_session.specs.AskLaws.{command_at};
ghost use Rattle.requester_machine.specs.Asking.{asks};
ghost use Rattle.requester_machine.specs.Commands.{Free};
ghost use Rattle.requester_machine.specs.History.{History};
ghost use Rattle.requester_machine.specs.May.{IsAllowed};
ghost use Rattle.requester_machine.specs.Message.Command.{Connect, Measure, Open, Retry};
ghost use Rattle.requester_machine.specs.Setup.{ReqSetup};
ghost use Rattle.requester_machine.specs.UnderWay.{HasSizes};
ghost use Rattle.spdm_machine.specs.Keys.{Draw};
ghost use Rattle.spdm_grammar.specs.declared.names.TheConstants.{MAX_PADDING, MAX_SESSIONS};

use crate::body::{write_clear, write_record};
use crate::{Body, Command, FreeValues, RequesterCore, Resend, Setup};
use psk_session::SessionRequest;
use spdm_basis::Psk;
use spdm_grammar::CommandFault;

impl RequesterCore {
    // Starts the negotiation over, whatever the sessions.
    pub(crate) fn connect(&mut self, out: &mut Body) -> u8
        ensures { (q : ReqSetup) (h : History) (f : Free) (d : Draw)
            → clear_state.Counts self.old.clear_state h → self.old.gathered.max ≡ q.max
            → IsDone q h (asks false q h Connect f d) result out.new self.new }
    {
        let tag = self.clear_state.connect(&mut self.message);
        self.sessions.clear();
        write_clear(self.message.as_slice(), out);
        tag
    }

    // Begins a session with a measurement summary of a kind.
    fn open(
        &mut self,
        setup: &Setup<'_>,
        psk: &Psk,
        summary: u8,
        free: &FreeValues<'_>,
        out: &mut Body,
    ) -> Result<u8, CommandFault>
        requires least { 1 ≤ free.now.id }
        requires most { free.now.id ≤ MAX_SESSIONS }
        ensures { (q : ReqSetup) (h : History) (f : Free) (d : Draw) → IsSetUp setup.now q
            → q.psk ≡ psk.now → IsFree free.now f → IsAllowed q h f → StandsFor self.old q h
            → IsCommanded q h (asks false q h (Open summary) f d) result out.new self.new }
    {
        let live = self.sessions.count();
        match self
            .clear_state
            .open(setup, live, summary, free, &mut self.message)
        {
            Err(fault) => Err(fault),
            Ok(tag) => {
                self.sessions.open(&self.clear_state, psk, free.id, summary);
                write_clear(self.message.as_slice(), out);
                Ok(tag)
            }
        }
    }

    // Asks for measurements in the clear.
    fn measure(&mut self, op: u8, out: &mut Body) -> Result<u8, CommandFault>
        ensures { (q : ReqSetup) (h : History) (f : Free) (d : Draw) → HasSizes q
            → StandsFor self.old q h
            → IsCommanded q h (asks false q h (Measure None op) f d) result out.new self.new }
    {
        match self.clear_state.measure(op, &mut self.message) {
            Err(fault) => Err(fault),
            Ok(tag) => {
                write_clear(self.message.as_slice(), out);
                Ok(tag)
            }
        }
    }

    // Sends a request in the session with this ReqSessionID, in a record with this padding.
    fn ask(
        &mut self,
        id: u16,
        ask: SessionRequest<'_>,
        pad: &[u8],
        out: &mut Body,
    ) -> Result<u8, CommandFault>
        requires pad { length pad.now ≤ MAX_PADDING }
        ensures { (q : ReqSetup) (h : History) (f : Free) (d : Draw) → f.pad ≡ pad.now
            → length h < 2 ^ 64 - 1 → StandsFor self.old q h
            → IsCommanded q h (asks false q h (command_at id ask.entry) f d) result out.new
            self.new }
    {
        if let Some(fault) = self.clear_state.session_fault() {
            return Err(fault);
        }
        match self.sessions.ask(id, ask, pad) {
            Err(fault) => Err(fault),
            Ok(()) => {
                let tag = self.clear_state.send_record(id);
                write_record(self.sessions.record(), out);
                Ok(tag)
            }
        }
    }

    // Resends the outstanding message.
    fn retry(&mut self, out: &mut Body) -> Result<u8, CommandFault>
        ensures { (q : ReqSetup) (h : History) (f : Free) (d : Draw) → HasSizes q
            → StandsFor self.old q h
            → IsCommanded q h (asks false q h Retry f d) result out.new self.new }
    {
        let again = self.clear_state.retry(&mut self.message)?;
        match again {
            Resend::InClear { tag } => {
                write_clear(self.message.as_slice(), out);
                Ok(tag)
            }
            Resend::InSession { tag, .. } => {
                write_record(self.sessions.record(), out);
                Ok(tag)
            }
        }
    }

    /// Runs a command, with these free values, and this padding of at most 16 bytes if a record is sealed. The body
    /// sent overwrites `out`; returns the tag of its message. The ReqSessionID of `free` is from 1 to 4. Faults are
    /// checked in the order of `CommandFault`, without `Worn`; on a fault nothing changes.
    pub fn command(
        &mut self,
        setup: &Setup<'_>,
        psk: &Psk,
        command: Command<'_>,
        free: &FreeValues<'_>,
        pad: &[u8],
        out: &mut Body,
    ) -> Result<u8, CommandFault>
        requires least { 1 ≤ free.now.id }
        requires most { free.now.id ≤ MAX_SESSIONS }
        requires pad { length pad.now ≤ MAX_PADDING }
        ensures { (q : ReqSetup) (h : History) (f : Free) (d : Draw) → IsSetUp setup.now q
            → q.psk ≡ psk.now → IsFree free.now f → f.pad ≡ pad.now → IsAllowed q h f
            → length h < 2 ^ 64 - 1 → StandsFor self.old q h → IsCommanded q h
            (asks false q h (command_of command.entry) f d) result out.new self.new }
    {
        match command {
            Command::Connect => Ok(self.connect(out)),
            Command::Open { summary } => self.open(setup, psk, summary, free, out),
            Command::Measure { session: None, op } => self.measure(op, out),
            Command::Retry => self.retry(out),
            Command::Send { session, bytes } => {
                self.ask(u16::from(session), SessionRequest::Data(bytes), pad, out)
            }
            Command::Beat { session } => self.ask(
                u16::from(session),
                SessionRequest::Beat,
                pad,
                out,
            ),
            Command::Update { session, all: true } => {
                self.ask(u16::from(session), SessionRequest::UpdateAll, pad, out)
            }
            Command::Update {
                session,
                all: false,
            } => self.ask(u16::from(session), SessionRequest::UpdateKey, pad, out),
            Command::Measure {
                session: Some(session),
                op,
            } => self.ask(u16::from(session), SessionRequest::Measure { op }, pad, out),
            Command::End { session } => self.ask(u16::from(session), SessionRequest::End, pad, out),
        }
    }
}
