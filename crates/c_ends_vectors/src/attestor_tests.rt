use crate::setting::{NOTHING, REQUESTER, open_responder};
use c_attestor::{AttestorHandle, Verdict};
use c_ends::codes;
use std::alloc::Global;
use std::test::Fail;

// What an attestor decides under the text of a policy, of a responder with no measurements.
fn decided(alloc: Global, policy: &[u8]) -> Result<Verdict, Fail> {
    let mut responder = open_responder(alloc)?;
    let mut attestor = AttestorHandle::closed(alloc);
    if attestor.open(alloc, &REQUESTER, policy) != codes::OK {
        return Err("no attestor".into());
    }
    attestor.start(alloc);
    let mut verdict = Verdict { kind: 0, number: 0 };
    let mut told = NOTHING;
    let mut room = [0; 1028];
    let mut len = 0;
    for _ in 0..16 {
        attestor.packet(alloc, 0, &mut room, &mut len);
        let packet = room.get(..len).ok_or("no packet")?;
        responder.on_packet(alloc, packet, &mut told);
        responder.packet(alloc, 0, &mut room, &mut len);
        let packet = room.get(..len).ok_or("no packet")?;
        attestor.on_packet(alloc, packet, &mut verdict);
        if verdict.kind != 0 {
            return Ok(verdict);
        }
    }
    Ok(verdict)
}

#[test]
fn verdicts_by_handles(rt: HostRuntime) -> Result<(), Fail> {
    let alloc = rt.alloc();
    let trusted = decided(alloc, b"skip 1\ngo\n")?;
    assert_eq!(rt; (trusted.kind, trusted.number), (2, 0));
    let missing = decided(alloc, b"skip 1\nexpect 3 0 -\ngo\n")?;
    assert_eq!(rt; (missing.kind, missing.number), (7, 3));
    let mut attestor = AttestorHandle::closed(alloc);
    let code = attestor.open(alloc, &REQUESTER, b"skip 0\ngo\n");
    assert_eq!(rt; code, codes::BAD_POLICY);
    Ok(())
}
