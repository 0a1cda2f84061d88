use crate::setting::Ends;
use std::test::Fail;

#[test]
fn a_session_by_handles(rt: HostRuntime) -> Result<(), Fail> {
    let alloc = rt.alloc();
    let mut ends = Ends::new(alloc)?;
    ends.requester.command(alloc, 1, 0, 0, &[]);
    let connected = ends.carry(alloc);
    assert_eq!(rt; (connected.kind, connected.cause), (18, 1));
    ends.requester.command(alloc, 2, 0, 0, &[]);
    let opened = ends.carry(alloc);
    assert_eq!(rt;
        (opened.kind, opened.cause, opened.session),
        (18, 2, 65_537)
    );
    ends.responder.queue(alloc, 9, b"hi");
    ends.requester.command(alloc, 3, 1, 0, b"hello");
    ends.carry(alloc);
    let mut room = [0; 8];
    let mut len = 0;
    ends.responder.data(alloc, &mut room, &mut len);
    assert_eq!(rt; room.get(..len), Some(&b"hello"[..]));
    ends.requester.data(alloc, &mut room, &mut len);
    assert_eq!(rt; room.get(..len), Some(&b"hi"[..]));
    Ok(())
}
