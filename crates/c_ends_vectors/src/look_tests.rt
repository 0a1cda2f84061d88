use crate::setting::Ends;
use c_ends::{Change, Message, Watch, Watched};
use std::test::Fail;

const NO_SESSION: Watched = Watched {
    req: 0,
    rsp: 0,
    standing: 0,
};

const NO_SESSIONS: Watch = Watch {
    first: NO_SESSION,
    second: NO_SESSION,
    third: NO_SESSION,
    fourth: NO_SESSION,
};

const NO_CHANGE: Change = Change {
    kind: 0,
    session: 0,
    by: 0,
};

const NO_MESSAGE: Message = Message { eid: 0, session: 0 };

// A session is established, its message is told before it is taken, and a negotiation ends it.
#[test]
fn looks_by_handles(rt: HostRuntime) -> Result<(), Fail> {
    let alloc = rt.alloc();
    let mut ends = Ends::new(alloc)?;
    let mut watch = NO_SESSIONS;
    let mut changes = [NO_CHANGE; 4];
    ends.requester.command(alloc, 1, 0, 0, &[]);
    ends.carry(alloc);
    ends.requester.command(alloc, 2, 0, 0, &[]);
    ends.carry(alloc);
    ends.responder.changes(alloc, 9, &mut watch, &mut changes);
    assert_eq!(rt; (changes[0].kind, changes[0].session), (2, 65_537));
    ends.requester.command(alloc, 3, 1, 0, b"hello");
    let mut packet = [0; 1028];
    let mut len = 0;
    ends.requester.packet(alloc, 0, &mut packet, &mut len);
    let mut message = NO_MESSAGE;
    let mut room = [0; 8];
    let mut room_len = 0;
    let sent = packet.get(..len).ok_or("no packet")?;
    ends.responder
        .peek(alloc, sent, &mut message, &mut room, &mut room_len);
    assert_eq!(rt; (message.eid, message.session), (9, 65_537));
    assert_eq!(rt; room.get(..room_len), Some(&b"hello"[..]));
    ends.carry(alloc);
    ends.requester.command(alloc, 1, 0, 0, &[]);
    ends.carry(alloc);
    ends.responder.changes(alloc, 9, &mut watch, &mut changes);
    assert_eq!(rt; (changes[0].kind, changes[0].session), (3, 65_537));
    Ok(())
}
