ghost use Rattle.std.specs.Prelude.{◌≡◌, false};
ghost use Rattle.attestor.specs.Attesting.{Attesting, ends, goes_on, has_failed, is_decided, own_session};
ghost use Rattle.attestor.specs.Standing.{IsGiven, IsTold, StandsFor, waits};
ghost use Rattle.requester_core.specs.Joined.{command_of};
ghost use Rattle.requester_machine.specs.Message.Command.{End};
ghost use Rattle.requester_machine.specs.Requesting.{requester_told};

use crate::attestor::OWN_SESSION;
use crate::{Attestor, Progressed};
use appraise::appraise;
use mctp_framing::PacketList;
use requester::{Command, CommandFault};

impl Attestor {
    // Tells the requester a command.
    pub(crate) fn tell(
        &mut self,
        command: Command<'_>,
        out: &mut PacketList,
    ) -> Result<(), CommandFault>
        ensures decided { self.new.is_decided ≡ self.old.is_decided }
        ensures told { (a : Attesting) → StandsFor self.old a → has_failed a.decision ≡ false
            → IsTold a (requester_told a.requester (command_of command.entry)) result out.new
            self.new }
    {
        match self.requester.command(command, out) {
            Ok(()) => {
                self.is_waiting = true;
                Ok(())
            }
            Err(fault) => Err(fault),
        }
    }

    // Tells the next command. Where it has a fault, no record will come.
    pub(crate) fn go_on(&mut self, command: Command<'_>, out: &mut PacketList) -> Progressed
        ensures { (a : Attesting) → StandsFor self.old a → is_decided a.decision ≡ false
            → waits a ≡ false
            → IsGiven (goes_on a (command_of command.entry)) result out.new self.new }
    {
        match self.tell(command, out) {
            Ok(()) => Progressed::Going,
            Err(_) => {
                self.is_decided = true;
                Progressed::Failed
            }
        }
    }

    // Appraises the record that came, and ends the session.
    pub(crate) fn decide(&mut self, out: &mut PacketList) -> Progressed
        ensures { (a : Attesting) → StandsFor self.old a → is_decided a.decision ≡ false
            → IsGiven (ends a (requester_told a.requester (End own_session))) result out.new
            self.new }
    {
        let appraisal = appraise(&self.policy, self.requester.last_data());
        let session = OWN_SESSION;
        let _ = self.tell(Command::End { session }, out);
        self.is_decided = true;
        Progressed::Verdict(appraisal)
    }
}
