ghost use Rattle.std.specs.Prelude.{◌≡◌, replicate};

use crate::Responder;
use crate::peer::Peer;
use crate::room::Room;
use crate::shared::Shared;
use hmac_hkdf::DrawStream;
use session_keys::wipe_buffer;
use spdm_basis::Psk;

// Overwrites a pre-shared key by the longest key of zeros, to its whole capacity.
fn wipe_psk(psk: &mut Psk)
    ensures { psk.new ≡ replicate 64 0 }
{
    match Psk::new(&[0u8; 64]) {
        Some(zeros) => *psk = zeros,
        None => unreachable!(),
    }
}

impl Room {
    ghost use Rattle.responder.specs.Wiped.{IsWipedRoom};

    // Overwrites the buffers by zeros, but for the body that was sent.
    fn wipe(&mut self)
        ensures { IsWipedRoom self.new }
    {
        wipe_buffer(&mut self.message);
        wipe_buffer(&mut self.record);
        wipe_buffer(&mut self.reply);
        self.work.wipe();
    }
}

impl Shared {
    ghost use Rattle.responder.specs.Wiped.{IsWipedShared};

    // Overwrites the seed, the application data and the buffers by zeros.
    fn wipe(&mut self)
        ensures { IsWipedShared self.new }
    {
        self.draws = DrawStream::new([0u8; 32]);
        wipe_buffer(&mut self.last);
        self.room.wipe();
    }
}

impl Peer {
    ghost use Rattle.responder.specs.Wiped.{IsWipedPeer};

    // Overwrites the pre-shared key and each session.
    fn wipe(&mut self)
        ensures { IsWipedPeer self.new }
    {
        wipe_psk(&mut self.known.psk);
        self.connection.wipe();
    }
}

impl Responder {
    ghost use Rattle.responder.specs.Wiped.{IsWiped};

    /// Overwrites in place what is secret, before the memory of the responder is given back: the pre-shared keys, the
    /// keys and the plaintexts of all sessions, the seed, the application data and the buffers. Not to be gone on with.
    pub fn wipe(&mut self)
        ensures { IsWiped self.new }
    {
        self.shared.wipe();
        for place in 0..self.peers.len() {
            match self.peers.get_mut(place) {
                Some(peer) => peer.wipe(),
                None => unreachable!(),
            }
        }
    }
}
