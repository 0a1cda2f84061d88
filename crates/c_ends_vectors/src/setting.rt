use c_ends::{
    KnownRequester, Offer, PacketOutcome, RequesterConfig, RequesterHandle, ResponderConfig,
    ResponderHandle, codes,
};
use std::alloc::Global;
use std::test::Fail;

const OFFER: Offer = Offer {
    hash: 3,
    aead: 3,
    measure: 1,
    heartbeat: 1,
    key_update: 1,
    chunk: 1,
};

const KEY: &[u8] = b"1234567890123456";

pub(crate) const NOTHING: PacketOutcome = PacketOutcome {
    kind: 0,
    cause: 0,
    detail: 0,
    session: 0,
    number: 0,
};

// A requester of endpoint 9.
pub(crate) const REQUESTER: RequesterConfig<'static> = RequesterConfig {
    eid: 9,
    responder: 8,
    pad: 0,
    offer: OFFER,
    transfer: 1024,
    max: 4096,
    unit: 1024,
    boot: 0,
    hint: &[0x71],
    psk: KEY,
    opaque: &[],
    seed: &[1; 32],
};

// Its responder, of endpoint 8, with no measurements.
pub(crate) fn open_responder(alloc: Global) -> Result<ResponderHandle, Fail> {
    let mut responder = ResponderHandle::closed(alloc);
    let own = ResponderConfig {
        eid: 8,
        beat: 30,
        offer: OFFER,
        transfer: 1024,
        max: 4096,
        unit: 1024,
        boot: 0,
        opaque: &[],
        seed: &[2; 32],
    };
    let known = [KnownRequester {
        eid: 9,
        hint: &[0x71],
        psk: KEY,
    }];
    if responder.open(alloc, &own, &known, &[]) != codes::OK {
        return Err("no responder".into());
    }
    Ok(responder)
}

// Both ends, each open.
#[derive(Drop)]
pub(crate) struct Ends {
    pub(crate) requester: RequesterHandle,
    pub(crate) responder: ResponderHandle,
}

impl Ends {
    pub(crate) fn new(alloc: Global) -> Result<Ends, Fail> {
        let mut requester = RequesterHandle::closed(alloc);
        if requester.open(alloc, &REQUESTER) != codes::OK {
            return Err("no requester".into());
        }
        Ok(Ends {
            requester,
            responder: open_responder(alloc)?,
        })
    }

    // Carries packets, each of one message, there and back until the requester sends none; what it was told last.
    pub(crate) fn carry(&mut self, alloc: Global) -> PacketOutcome {
        let mut told = NOTHING;
        let mut room = [0; 1028];
        let mut len = 0;
        for _ in 0..8 {
            if self.requester.packet(alloc, 0, &mut room, &mut len) != codes::OK {
                return told;
            }
            let Some(packet) = room.get(..len) else {
                return told;
            };
            self.responder.on_packet(alloc, packet, &mut told);
            self.responder.packet(alloc, 0, &mut room, &mut len);
            let Some(packet) = room.get(..len) else {
                return told;
            };
            self.requester.on_packet(alloc, packet, &mut told);
        }
        told
    }
}
