use crate::body::write_clear;
use crate::{Body, ClearState, Outstanding, PendingRequest, RequesterCore, TransferMode};
use spdm_basis::Frame;

impl ClearState {
    ghost use Rattle.std.specs.Prelude.{◌≡◌, ◌∷◌, None, Some, true};
    ghost use Rattle.requester_core.specs.LargeRequests.{IsBrokenOff, SendsPiece, next_piece, piece_behind};
    ghost use Rattle.requester_core.specs.Owed.{TookAny};
    ghost use Rattle.requester_core.specs.ClearState.{Counts, Shows, StandsFor};
    ghost use Rattle.requester_machine.specs.History.{History, begins_large, outstanding};
    ghost use Rattle.requester_machine.specs.History.Entry.{Told};
    ghost use Rattle.requester_machine.specs.Message as message;
    ghost use Rattle.requester_machine.specs.Message.{Sent};
    ghost use Rattle.requester_machine.specs.Message.Aim.{ByChunks};
    ghost use Rattle.requester_machine.specs.Owed.{with_next};
    ghost use Rattle.requester_machine.specs.Setup.{ReqSetup};
    ghost use Rattle.requester_machine.specs.UnderWay.{HasSizes};
    ghost use Rattle.spdm_grammar.specs.Message.{RequestMessage};
    ghost use Rattle.spdm_machine.specs.Keys.{Draw};
    ghost use Rattle.requester_core.specs.Outstanding.{kind_of};

    // Sends the chunk after the one of this number, which is outstanding, where that is not the last.
    fn send_behind(
        &mut self,
        asked: PendingRequest,
        handle: u8,
        number: u16,
        out: &mut Frame,
    ) -> Option<u8>
        ensures { (q : ReqSetup) (h : History) (sent : Sent) (request : RequestMessage) → HasSizes q
            → StandsFor self.old q h → outstanding h ≡ Some sent
            → sent.aim ≡ ByChunks request handle number → kind_of request ≡ asked
            → SendsPiece q h (piece_behind h sent.aim) result out.new self.old self.new }
    {
        let transfer = self.negotiating.common().to_responder.transfer;
        if self.outgoing.is_last(transfer, handle, number) {
            return None;
        }
        let mode = TransferMode::ByChunks {
            handle,
            number: number.saturating_add(1),
        };
        Some(self.outgoing.send(asked, mode, transfer, out))
    }

    // Sends the chunk after the one that is outstanding, where there is one.
    fn send_piece(&mut self, out: &mut Frame) -> Option<u8>
        ensures { (q : ReqSetup) (h : History) → HasSizes q → StandsFor self.old q h
            → SendsPiece q h (next_piece h) result out.new self.old self.new }
    {
        match self.outgoing.waiting() {
            Outstanding::InClear {
                asked,
                mode: TransferMode::ByChunks { handle, number },
                ..
            } => self.send_behind(asked, handle, number, out),
            _ => None,
        }
    }

    // The outstanding message, which was to go out by itself in response to the last message, was never sent; or
    // nothing is outstanding.
    fn take_back_owed(&mut self)
        ensures none { (h : History) → outstanding h ≡ None → Shows self.old h → Shows self.new h }
        ensures owed { (bare : History) (sent : Sent) → TookAny bare
            → Shows self.old (with_next (Some sent) bare) → Shows self.new bare }
    {
        if self.is_busy() {
            self.undo_send();
        }
    }

    // A large request was sent in chunks, up to the one of this number, in place of the outstanding message, which was
    // never sent, if there is one.
    fn skip_chunks(&mut self, number: u16)
        ensures told { (h over : History) (command : message.Command) (first : Sent) (d : Draw)
            → outstanding h ≡ None → Shows self.old h → begins_large first.aim ≡ true
            → IsBrokenOff (Told command first d ∷ h) number over → Counts self.new over }
        ensures owed { (bare over : History) (sent first : Sent) → TookAny bare
            → Shows self.old (with_next (Some sent) bare) → begins_large first.aim ≡ true
            → IsBrokenOff (with_next (Some first) bare) number over → Counts self.new over }
    {
        self.take_back_owed();
        self.outgoing.skip_chunks(number);
    }
}

// A large request of which chunks came; used only by the checker.
impl RequesterCore {
    ghost use Rattle.std.specs.Prelude.{◌≡◌, ◌∷◌, None, Some, false, true};
    ghost use Rattle.requester_core.specs.Joined.{IsDone, StandsFor};
    ghost use Rattle.requester_core.specs.LargeRequests.{IsAcknowledged, IsBrokenOff, next_piece};
    ghost use Rattle.requester_core.specs.Owed.{TookAny};
    ghost use Rattle.requester_machine.specs.Asking.{asks};
    ghost use Rattle.requester_machine.specs.Commands.{Free};
    ghost use Rattle.requester_machine.specs.History.{History, begins_large, outstanding};
    ghost use Rattle.requester_machine.specs.History.Entry.{Told};
    ghost use Rattle.requester_machine.specs.Message as message;
    ghost use Rattle.requester_machine.specs.Message.{Sent};
    ghost use Rattle.requester_machine.specs.Message.Command.{Connect};
    ghost use Rattle.requester_machine.specs.Owed.{with_next};
    ghost use Rattle.requester_machine.specs.Setup.{ReqSetup};
    ghost use Rattle.requester_machine.specs.UnderWay.{HasSizes};
    ghost use Rattle.spdm_machine.specs.Keys.{Draw};

    /// Goes on to the next chunk of the large request whose chunk is outstanding, whatever message called for it: the
    /// tag under which it is sent. Its body overwrites `out`. Where no chunk is outstanding, or the last one, nothing
    /// changes.
    pub fn acknowledged(&mut self, out: &mut Body) -> Option<u8>
        ensures { (q : ReqSetup) (h : History) → HasSizes q → StandsFor self.old q h
            → IsAcknowledged q h (next_piece h) result out.new self.new }
    {
        let tag = self.clear_state.send_piece(&mut self.message)?;
        write_clear(self.message.as_slice(), out);
        Some(tag)
    }

    /// Starts over past a large request that was sent in chunks after everything in this state, whatever its bytes: by
    /// a command, or instead of the outstanding message, which was to be sent as a reaction to the last message. The
    /// chunks from 0 to this number took their tags, and the request took its handle. The body overwrites `out`.
    pub fn connect_over(&mut self, number: u16, out: &mut Body) -> u8
        ensures told { (q : ReqSetup) (h over : History) (command : message.Command) (first : Sent)
            (begun : Draw) (f : Free) (d : Draw) → outstanding h ≡ None → StandsFor self.old q h
            → begins_large first.aim ≡ true
            → IsBrokenOff (Told command first begun ∷ h) number over
            → IsDone q over (asks false q over Connect f d) result out.new self.new }
        ensures owed { (q : ReqSetup) (bare over : History) (sent first : Sent) (f : Free)
            (d : Draw) → TookAny bare → StandsFor self.old q (with_next (Some sent) bare)
            → begins_large first.aim ≡ true
            → IsBrokenOff (with_next (Some first) bare) number over
            → IsDone q over (asks false q over Connect f d) result out.new self.new }
    {
        self.clear_state.skip_chunks(number);
        self.connect(out)
    }
}
