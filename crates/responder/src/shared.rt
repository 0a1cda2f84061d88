//! What all connections of a responder share. Here a draw is used up. Which messages use one is `takes_draw` in
//! `responder_machine/specs/Turn.antt`; in code `begin` and `tells_measured` in `responder_core/src/connected.rt`, and
//! `drawn` in `responder_core/src/clear/requests.rt`.
ghost use Rattle.std.specs.Prelude.{◌≡◌, ◌<◌, ◌+◌, ◌-◌, ◌^◌};
ghost use Rattle.responder_core.specs.Connected.{StandsFor};
ghost use Rattle.responder.specs.Came.{IsShort, last_for};
ghost use Rattle.session_keys.specs.Drawing.{drawn_by};
ghost use Rattle.responder_machine.specs.History.{History};
ghost use Rattle.responder_machine.specs.Setup.{RspSetup};

use crate::room::Room;
use hmac_hkdf::DrawStream;
use responder_core::Connection;
use spdm_basis::Buffer;
use spdm_grammar::Heard;
use spdm_grammar::names::MAX_APP_DATA_LEN;

// State shared by all connections of a responder: the draws, the application data received last, and scratch buffers
// for a response.
#[derive(Drop)]
pub struct Shared {
    pub(crate) draws: DrawStream,
    pub(crate) last: Buffer<MAX_APP_DATA_LEN>,
    pub(crate) room: Box<Room>,
}

impl Shared {
    // Applies the outcome of a body at a connection: discards the draw that it used, and copies the data that it
    // brought.
    pub(crate) fn follow(&mut self, connection: &Connection, heard: Heard)
        ensures seed { self.new.draws.seed ≡ self.old.draws.seed }
        ensures number { self.old.draws.number < 2 ^ 64 - 1
            → self.new.draws.number ≡ self.old.draws.number + drawn_by connection.now.drawn }
        ensures room { self.new.room ≡ self.old.room }
        ensures last { (r : RspSetup) (h : History) → StandsFor connection.now r h
            → IsShort heard h → self.new.last ≡ last_for heard h self.old.last }
    {
        if connection.is_drawn() {
            let _ = self.draws.advance();
        }
        if let Heard::Taken(id) = heard {
            self.last.clear();
            let _ = self.last.extend(connection.data(id.rsp));
        }
    }
}
