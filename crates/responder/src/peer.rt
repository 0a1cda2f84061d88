ghost use Rattle.std.specs.Prelude.{◌≡◌, ◌<◌, ◌-◌, ◌^◌, ◌∷◌, [], List, IfOk, MatchResult};
ghost use Rattle.mctp_framing.specs.Packet.{PacketFields, view_of};
ghost use Rattle.responder.specs.Peers.{IsNotQueued, IsQueued, IsTaken, StandsFor};
ghost use Rattle.responder.specs.SetUp.{IsPart, known_of};
ghost use Rattle.responder_machine.specs.BoundLaws.{messages_of};
ghost use Rattle.responder_machine.specs.Does.{IsMade};
ghost use Rattle.responder_machine.specs.History.Entry.{Ticked};
ghost use Rattle.responder_machine.specs.Responding as responding;
ghost use Rattle.responder_machine.specs.Responding.{changed, new_connection};
ghost use Rattle.responder_machine.specs.Setup.{RspPart};

use crate::Known;
use crate::part::Part;
use crate::shared::Shared;
use crate::whole::hear_whole;
use mctp_framing::{Assembler, Fed, PacketList, PacketView};
use responder_core::Connection;
use responder_session::QueueFault;
use spdm_basis::{Bytes, OutOfMemory, Psk};
use spdm_grammar::names::MAX_BODY_SIZE;
use spdm_grammar::{Heard, ReplyFault, RspIgnored};
use std::alloc::Global;

// The state of one requester: its configuration, the connection with it, and the message body that is being assembled
// from its packets.
#[derive(Drop)]
pub struct Peer {
    pub(crate) known: Known,
    pub(crate) connection: Connection,
    pub(crate) assembler: Assembler,
}

// A copy of what is known of a requester.
fn copy_of(alloc: Global, known: &Known) -> Result<Known, OutOfMemory>
    ensures { IfOk result (λ copy. copy ≡ known.now) }
{
    let hint = Bytes::copy(alloc, known.hint.as_slice())?;
    match Psk::new(known.psk.as_slice()) {
        Some(psk) => Ok(Known {
            eid: known.eid,
            hint,
            psk,
        }),
        None => unreachable!(),
    }
}

impl Peer {
    // The initial state of a requester.
    pub(crate) fn new(alloc: Global, part: &Part, known: &Known) -> Result<Peer, OutOfMemory>
        ensures { (p : RspPart) → IsPart part.now p
            → IfOk result (λ peer. StandsFor peer p [] (new_connection p (known_of known.now))) }
    {
        let known = copy_of(alloc, known)?;
        let connection = Connection::new(alloc, &part.towards(&known))?;
        let assembler = Assembler::new(alloc, part.eid, known.eid, MAX_BODY_SIZE)?;
        Ok(Peer {
            known,
            connection,
            assembler,
        })
    }

    // Handles a packet from this requester to the responder. The response packets overwrite `out`; without a response
    // `out` is unchanged.
    pub(crate) fn on_packet(
        &mut self,
        part: &Part,
        shared: &mut Shared,
        view: PacketView<'_>,
        out: &mut PacketList,
    ) -> Heard
        requires sequence { view.sequence < 4 }
        requires tag { view.tag < 8 }
        ensures { (p : RspPart) (given : List PacketFields) (c : responding.Connection)
            → IsPart part.now p → IsMade c.setup c.history → messages_of c.history < 2 ^ 64 - 1
            → shared.old.draws.number < 2 ^ 64 - 1 → out.old ≡ [] → StandsFor self.old p given c
            → IsTaken p given c (view_of view.entry) result out.new self.new shared.old shared.new }
    {
        let setup = part.towards(&self.known);
        match self.assembler.take(view) {
            Fed::Whole(route, body) => hear_whole(
                &mut self.connection,
                part,
                &setup,
                shared,
                route,
                body,
                out,
            ),
            Fed::More => Heard::More,
            Fed::Dropped(cause) => Heard::Ignored(RspIgnored::Dropped(cause)),
        }
    }

    // Queues application data to send in reply to this requester. On an error nothing changes.
    pub(crate) fn queue(&mut self, bytes: &[u8]) -> Result<(), ReplyFault>
        ensures { (p : RspPart) (given : List PacketFields) (c : responding.Connection)
            → StandsFor self.old p given c
            → MatchResult result (λ _. IsQueued p given c bytes.now self.new)
            (λ fault. IsNotQueued p given c bytes.now fault self.new) }
    {
        match self.connection.queue(bytes) {
            Ok(()) => Ok(()),
            Err(QueueFault::TooLong) => Err(ReplyFault::TooLong),
            Err(QueueFault::Full) => Err(ReplyFault::Full),
        }
    }

    // Advances the clock of this requester's sessions.
    pub(crate) fn tick(&mut self, seconds: u32)
        ensures { (p : RspPart) (given : List PacketFields) (c : responding.Connection)
            → StandsFor self.old p given c
            → StandsFor self.new p given (changed (λ h. Ticked seconds ∷ h) c) }
    {
        self.connection.tick(seconds);
    }
}
