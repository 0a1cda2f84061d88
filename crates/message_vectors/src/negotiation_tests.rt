use negotiate::*;
use spdm_grammar::{AeadAlg, AlgOffer, AlgReply, Caps, CapsFault, Choice, HashAlg, Pick, Suites};

// A requester and a responder that go together: DataTransferSize 42, MaxSPDMmsgSize 4,096.
const REQUESTER: Caps = Caps {
    ct: 0,
    flags: 0x02_44c0,
    transfer: 42,
    max: 4096,
};

const RESPONDER: Caps = Caps {
    ct: 0,
    flags: 0x02_68c8,
    transfer: 42,
    max: 4096,
};

#[test]
fn first_entry_of_version_12(rt: HostRuntime) {
    assert!(rt; choose_version(&[0x00, 0x10, 0x01, 0x12, 0x00, 0x12]) == Some(0x1201));
    assert!(rt; choose_version(&[0x00, 0x11, 0x00, 0x13]) == None);
    assert!(rt; choose_version(&[]) == None);
}

#[test]
fn capabilities_in_common(rt: HostRuntime) {
    let sizes = Sizes {
        transfer: 42,
        max: 4096,
    };
    let expected = Common {
        measure: true,
        heartbeat: false,
        key_update: true,
        chunk: true,
        to_requester: sizes,
        to_responder: sizes,
    };
    assert!(rt; common(&REQUESTER, &RESPONDER) == Ok(expected));
}

#[test]
fn limits_of_own_sizes(rt: HostRuntime) {
    let may = |transfer, max, chunk| Sizes { transfer, max }.may_be_own(chunk);
    assert!(rt; may(42, 42, false) && may(4096, 4096, false) && may(42, 4096, true));
    assert!(rt; !may(41, 4096, true) && !may(42, 4097, true) && !may(43, 42, true));
    assert!(rt; !may(42, 43, false));
}

// PSK_CAP is 10 in the third row, and the fourth has no MAC_CAP.
const REQUESTER_FAULTS: [(Caps, CapsFault); 4] = [
    (
        Caps {
            transfer: 41,
            max: 40,
            ..REQUESTER
        },
        CapsFault::SizeTooSmall,
    ),
    (
        Caps {
            max: 41,
            flags: 0,
            ..REQUESTER
        },
        CapsFault::SizesCrossed,
    ),
    (
        Caps {
            flags: 0x0840,
            ..REQUESTER
        },
        CapsFault::NoPsk,
    ),
    (
        Caps {
            flags: 0x0440,
            ..REQUESTER
        },
        CapsFault::NoProtection,
    ),
];

#[test]
fn faults_of_a_requester(rt: HostRuntime) {
    for (caps, fault) in &REQUESTER_FAULTS {
        assert!(rt; common(caps, &RESPONDER).err() == Some(*fault));
    }
}

// PSK_CAP is 01 in the third row, and the fourth has no ENCRYPT_CAP.
const RESPONDER_FAULTS: [(Caps, CapsFault); 4] = [
    (
        Caps {
            transfer: 41,
            max: 40,
            ..RESPONDER
        },
        CapsFault::SizeTooSmall,
    ),
    (
        Caps {
            max: 41,
            flags: 0,
            ..RESPONDER
        },
        CapsFault::SizesCrossed,
    ),
    (
        Caps {
            flags: 0x0480,
            ..RESPONDER
        },
        CapsFault::NoPsk,
    ),
    (
        Caps {
            flags: 0x0880,
            ..RESPONDER
        },
        CapsFault::NoProtection,
    ),
];

#[test]
fn faults_of_a_responder(rt: HostRuntime) {
    for (caps, fault) in &RESPONDER_FAULTS {
        assert!(rt; common(&REQUESTER, caps).err() == Some(*fault));
    }
}

fn policy(suites: Suites) -> AlgPolicy {
    AlgPolicy {
        measure: true,
        suites,
        transfer: 1024,
    }
}

const SMALL: Choice = Choice {
    hash: HashAlg::Sha256,
    aead: AeadAlg::Aes128Gcm,
    measure: true,
};

const SMALL_SUITES: Suites = Suites {
    hash: Pick::Small,
    aead: Pick::Small,
};

// The algorithm structures of an offer of these suites, and of the reply to it.
const SMALL_TABLES: &[u8] = &[2, 0x20, 0, 0, 3, 0x20, 1, 0, 4, 0x20, 0, 0, 5, 0x20, 1, 0];

#[test]
fn own_offer_has_its_fields(rt: HostRuntime) {
    let Some(offer) = own_offer(SMALL_SUITES, 1024) else {
        assert!(rt; false);
        return;
    };
    assert!(rt; offer.measurement == 1 && offer.other == 2 && offer.asym == 0 && offer.hash == 1);
    assert!(rt; offer.count == 4 && offer.tables == SMALL_TABLES);
}

#[test]
fn reply_to_own_offer_has_its_fields(rt: HostRuntime) {
    let Some(offer) = own_offer(SMALL_SUITES, 1024) else {
        assert!(rt; false);
        return;
    };
    let reply = Reply::new(&offer, SMALL);
    let message = reply.message();
    assert!(rt; message.measurement == 1 && message.other == 2 && message.measurement_hash == 2);
    assert!(rt; message.asym == 0 && message.hash == 1);
    assert!(rt; message.count == 4 && message.tables == SMALL_TABLES);
}

// What a requester and a responder of these picks choose, and what the requester takes from the reply.
fn outcome(requester: Pick, responder: Pick) -> (Option<Choice>, Option<Choice>) {
    let ours = Suites {
        hash: requester,
        aead: requester,
    };
    let theirs = Suites {
        hash: responder,
        aead: responder,
    };
    let Some(offer) = own_offer(ours, 52) else {
        return (None, None);
    };
    let Ok(choice) = select(&offer, &policy(theirs)) else {
        return (None, None);
    };
    let reply = Reply::new(&offer, choice);
    (Some(choice), agrees(&offer, &reply.message()).ok())
}

#[test]
fn every_pair_of_picks(rt: HostRuntime) {
    let small = Some(SMALL);
    let large = Some(LARGE);
    let rows = [
        (Pick::Small, Pick::Small, small),
        (Pick::Small, Pick::Large, None),
        (Pick::Small, Pick::Both, small),
        (Pick::Large, Pick::Small, None),
        (Pick::Large, Pick::Large, large),
        (Pick::Large, Pick::Both, large),
        (Pick::Both, Pick::Small, small),
        (Pick::Both, Pick::Large, large),
        (Pick::Both, Pick::Both, large),
    ];
    for (requester, responder, expected) in rows {
        assert!(rt; outcome(requester, responder) == (expected, expected));
    }
}

#[test]
fn no_offer_of_the_large_hash_at_51(rt: HostRuntime) {
    let suites = Suites {
        hash: Pick::Large,
        aead: Pick::Large,
    };
    assert!(rt; own_offer(suites, 51) == None);
}

// An offer of both hashes and of these algorithm structures.
fn offer_of(count: u8, tables: &[u8]) -> AlgOffer<'_> {
    AlgOffer {
        measurement: 1,
        other: 3,
        asym: 0,
        hash: 3,
        ext_asym: &[],
        ext_hash: &[],
        count,
        tables,
    }
}

const LARGE: Choice = Choice {
    hash: HashAlg::Sha384,
    aead: AeadAlg::Aes256Gcm,
    measure: true,
};

const BOTH: Suites = Suites {
    hash: Pick::Both,
    aead: Pick::Both,
};

// KeySchedule, an unknown type, AEAD with an external entry, DHE, and a second AEAD.
const MIXED_TABLES: [u8; 24] = [
    5, 0x20, 1, 0, 9, 0x20, 7, 7, 3, 0x21, 3, 0, 1, 2, 3, 4, 2, 0x20, 5, 0, 3, 0x20, 1, 0,
];

#[test]
fn tables_in_another_order(rt: HostRuntime) {
    let offer = offer_of(5, &MIXED_TABLES);
    assert!(rt; select(&offer, &policy(BOTH)) == Ok(LARGE));
    let reply = Reply::new(&offer, LARGE);
    assert!(rt; agrees(&offer, &reply.message()) == Ok(LARGE));
}

#[test]
fn reply_in_the_order_of_the_offer(rt: HostRuntime) {
    let reply = Reply::new(&offer_of(5, &MIXED_TABLES), LARGE);
    let message = reply.message();
    let answered = [5, 0x20, 1, 0, 3, 0x20, 2, 0, 2, 0x20, 0, 0];
    assert!(rt; message.count == 3 && message.tables == answered.as_slice());
    assert!(rt; message.other == 2 && message.measurement_hash == 4 && message.hash == 2);
}

#[test]
fn offers_without_a_choice(rt: HostRuntime) {
    let no_key_schedule = [3, 0x20, 3, 0, 5, 0x20, 2, 0];
    assert!(rt; select(&offer_of(2, &no_key_schedule), &policy(BOTH)) == Err(NoChoice));
    let no_aead = [5, 0x20, 1, 0];
    assert!(rt; select(&offer_of(1, &no_aead), &policy(BOTH)) == Err(NoChoice));
    assert!(rt; select(&offer_of(0, &[]), &policy(BOTH)) == Err(NoChoice));
}

// An offer of one AEAD, and the reply that takes it with the large hash.
const TABLES: [u8; 8] = [3, 0x20, 1, 0, 5, 0x20, 1, 0];

const REPLY: AlgReply<'static> = AlgReply {
    measurement: 0,
    other: 0,
    measurement_hash: 0,
    asym: 0,
    hash: 2,
    ext_asym: &[],
    ext_hash: &[],
    count: 2,
    tables: &TABLES,
};

// Whether that offer and a reply agree.
fn is_taken(reply: &AlgReply<'_>) -> bool {
    agrees(&offer_of(2, &TABLES), reply).is_ok()
}

#[test]
fn reply_that_is_taken(rt: HostRuntime) {
    assert!(rt; is_taken(&REPLY));
}

#[test]
fn reply_of_both_hashes(rt: HostRuntime) {
    assert!(rt; !is_taken(&AlgReply { hash: 3, ..REPLY }));
}

#[test]
fn reply_of_another_measurement_specification(rt: HostRuntime) {
    let reply = AlgReply {
        measurement: 2,
        ..REPLY
    };
    assert!(rt; !is_taken(&reply));
}

#[test]
fn reply_of_an_aead_that_was_not_offered(rt: HostRuntime) {
    let reply = AlgReply {
        tables: &[3, 0x20, 2, 0, 5, 0x20, 1, 0],
        ..REPLY
    };
    assert!(rt; !is_taken(&reply));
}

#[test]
fn reply_of_another_key_schedule(rt: HostRuntime) {
    let reply = AlgReply {
        tables: &[3, 0x20, 1, 0, 5, 0x20, 3, 0],
        ..REPLY
    };
    assert!(rt; !is_taken(&reply));
}
