use spdm_basis::Frame;
use spdm_codec::*;
use spdm_grammar::{Malformed, Part, Request, Response};
use std::test::*;

// NEGOTIATE_ALGORITHMS of a requester that offers SHA-256 and AES-128-GCM.
const OFFER: [u8; 48] = [
    0x12, 0xe3, 0x04, 0, 0x30, 0, 0x01, 0x02, 0, 0, 0, 0, 0x01, 0, 0, 0, 0, 0, 0, 0, 0, 0, 0, 0, 0,
    0, 0, 0, 0, 0, 0, 0, 0x02, 0x20, 0, 0, 0x03, 0x20, 0x01, 0, 0x04, 0x20, 0, 0, 0x05, 0x20, 0x01,
    0,
];

// Its last chunk, of 22 bytes, where 26 went before.
const CHUNK: [u8; 34] = [
    0x12, 0x85, 0x01, 0, 0x01, 0, 0, 0, 0x16, 0, 0, 0, 0, 0, 0, 0, 0, 0, 0x02, 0x20, 0, 0, 0x03,
    0x20, 0x01, 0, 0x04, 0x20, 0, 0, 0x05, 0x20, 0x01, 0,
];

fn request_fault(bytes: &[u8]) -> Option<Malformed> {
    read_request(bytes, 32).err()
}

// Requests, each with the place and the part at fault.
const MALFORMED: [(&[u8], usize, Part); 7] = [
    (&[0x10, 0x84, 0, 0, 0], 4, Part::Rest),
    (&[0x12, 0xe9, 4, 0], 2, Part::Field),
    (&[0x12, 0xe8], 2, Part::End),
    (&[0x12, 0x84], 1, Part::Field),
    (&[0x12, 0x04], 1, Part::Field),
    (&[], 0, Part::End),
    (&[0x11], 0, Part::Field),
];

#[test]
fn malformed_places(rt: HostRuntime) {
    for (bytes, at, what) in MALFORMED {
        assert!(rt; request_fault(bytes) == Some(Malformed { at, what }));
    }
}

#[test]
fn params_of_get_version_are_any(rt: HostRuntime) {
    assert!(rt;
        matches!(
            read_request(&[0x10, 0x84, 7, 9], 32),
            Ok(Request::GetVersion)
        )
    );
}

// VERSION with one entry, of version 1.2.
const VERSION: [u8; 8] = [0x10, 0x04, 0, 0, 0, 1, 0, 0x12];

#[test]
fn version_is_written(rt: HostRuntime) -> Result<(), Fail> {
    let mut out = Frame::new();
    let message = Response::Version {
        entries: &[0x00, 0x12],
    };
    write_response(&message, 32, false, &mut out)?;
    assert!(rt; out.as_slice() == VERSION.as_slice());
    Ok(())
}

#[test]
fn version_has_one_entry(rt: HostRuntime) {
    match read_response(&VERSION, 32, false) {
        Ok(Response::Version { entries }) => assert!(rt; entries == [0x00, 0x12].as_slice()),
        _ => assert!(rt; false),
    }
}

#[test]
fn offer_at_every_length(rt: HostRuntime) {
    for n in 0..48usize {
        let fault = Some(Malformed {
            at: n,
            what: Part::End,
        });
        assert!(rt; request_fault(&OFFER[..n]) == fault);
    }
}

#[test]
fn offer_has_its_fields(rt: HostRuntime) {
    match read_request(&OFFER, 32) {
        Ok(Request::NegotiateAlgorithms(offer)) => {
            assert!(rt; offer.hash == 1);
            assert!(rt; offer.other == 2);
            assert!(rt; offer.tables == &OFFER[32..]);
        }
        _ => assert!(rt; false),
    }
}

#[test]
fn offer_in_two_pieces(rt: HostRuntime) -> Result<(), Fail> {
    for n in 0..48usize {
        let mut feed = Feed::new(Expect::Request { hash_len: 32 });
        feed.push(&OFFER[..n])?;
        feed.push(&OFFER[n..])?;
        assert!(rt; feed.finish_request().is_ok());
        assert!(rt;
            feed.push(&[0])
                == Err(FeedFault::Bad(Malformed {
                    at: 48,
                    what: Part::Rest
                }))
        );
    }
    Ok(())
}

#[test]
fn last_chunk(rt: HostRuntime) {
    match read_request(&CHUNK, 32) {
        Ok(Request::ChunkSend(chunk)) => {
            assert!(rt; chunk.last);
            assert!(rt; chunk.number == 1);
            assert!(rt; chunk.large.is_none());
            assert!(rt; chunk.chunk == &CHUNK[12..]);
        }
        _ => assert!(rt; false),
    }
}

#[test]
fn answer_inside_an_acknowledgement(rt: HostRuntime) {
    let large = [0x12, 0x05, 0, 0, 0x01, 0, 0x12, 0x7f, 0x0f, 0, 0];
    match read_response(&large, 32, false) {
        Ok(Response::ChunkSendAck { response, .. }) => assert!(rt; response == &large[6..]),
        _ => assert!(rt; false),
    }
}
