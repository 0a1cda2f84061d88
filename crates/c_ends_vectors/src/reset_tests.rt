use crate::setting::Ends;
use c_ends::codes;
use std::test::Fail;

// The session of a requester that is given up is gone, its record opens no more, and the requester comes back.
#[test]
fn reset_by_handles(rt: HostRuntime) -> Result<(), Fail> {
    let alloc = rt.alloc();
    let mut ends = Ends::new(alloc)?;
    ends.requester.command(alloc, 1, 0, 0, &[]);
    ends.carry(alloc);
    ends.requester.command(alloc, 2, 0, 0, &[]);
    ends.carry(alloc);
    assert_eq!(rt; ends.responder.reset(alloc, 10), codes::UNKNOWN_PEER);
    assert_eq!(rt; ends.responder.reset(alloc, 9), codes::OK);
    let mut phase = 0;
    ends.responder.phase(alloc, 9, &mut phase);
    assert_eq!(rt; phase, 1);
    ends.requester.command(alloc, 3, 1, 0, b"hello");
    let warned = ends.carry(alloc);
    assert_eq!(rt; warned.kind, 20);
    ends.requester.command(alloc, 1, 0, 0, &[]);
    let connected = ends.carry(alloc);
    assert_eq!(rt; (connected.kind, connected.cause), (18, 1));
    Ok(())
}
