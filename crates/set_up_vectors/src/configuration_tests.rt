use mctp_framing::PacketList;
use requester::Command;
use script_ends::{make_requester, make_responder};
use script_text::parse_config;
use std::test::Fail;

// A responder, and a requester that it knows.
const CONFIG: &[u8] = b"seed 0000000000000000000000000000000000000000000000000000000000000000
responder 8 1024 4096 64 30 mhkc
requester 9 1024 4096 64 0 mhkc 71 31323334353637383930313233343536 -
end
";

// GET_VERSION in a packet of the requester, and VERSION in a packet of the responder.
const GET_VERSION: &[u8] = &[1, 8, 9, 0xc8, 5, 0x10, 0x84, 0, 0];

const VERSION: &[u8] = &[1, 9, 8, 0xc0, 5, 0x10, 4, 0, 0, 0, 1, 0, 0x12];

// In the first life and in the last.
#[test]
fn ends_begin_a_negotiation(rt: HostRuntime) -> Result<(), Fail> {
    let config = parse_config(rt.alloc(), CONFIG)?;
    let eid = config.responder.eid;
    let mut out = PacketList::new(rt.alloc())?;
    for boot in [0, 0xff_fffe] {
        let mut responder = make_responder(rt.alloc(), &config, [7; 32], boot)?;
        for q in config.requesters.as_slice() {
            let mut requester = make_requester(rt.alloc(), eid, q, [8; 32], boot)?;
            assert_eq!(rt; requester.command(Command::Connect, &mut out), Ok(()));
            assert_eq!(rt; out.get(0), Some(GET_VERSION));
            let _ = responder.on_packet(GET_VERSION, &mut out);
            assert_eq!(rt; out.get(0), Some(VERSION));
        }
    }
    Ok(())
}
