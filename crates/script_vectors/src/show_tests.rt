use script_text::line_packet;
use spdm_basis::{Line, MemSink};
use spdm_show::{ShowFault, show};
use std::test::Fail;

// The line of a packet in a trace, and in a capture.
#[test]
fn packet_has_its_line(rt: HostRuntime) {
    let mut line = Line::new();
    line_packet(
        65536,
        &[0x01, 0x08, 0x09, 0xc8, 0x05, 0x10, 0x84, 0x00, 0x00],
        &mut line,
    );
    assert_eq!(rt;
        line.as_slice(),
        b"packet 65536 010809c80510840000\n".as_slice()
    );
}

#[test]
fn show_two_lines(rt: HostRuntime) -> Result<(), Fail> {
    let mut sink = MemSink::new(rt.alloc(), 100, &[])?;
    show(rt.alloc(), b"q 10840000\n# a comment\nq 1284\n", &mut sink)?;
    assert_eq!(rt;
        sink.as_slice(),
        b"GET_VERSION 4\nmalformed 1 field\n".as_slice()
    );
    Ok(())
}

#[test]
fn second_line_is_not_written(rt: HostRuntime) -> Result<(), Fail> {
    let mut sink = MemSink::new(rt.alloc(), 100, &[1])?;
    let answer = show(rt.alloc(), b"q 10840000\nq 1284\n", &mut sink);
    assert_eq!(rt; answer, Err(ShowFault::WriteFault));
    assert_eq!(rt; sink.as_slice(), b"GET_VERSION 4\n".as_slice());
    Ok(())
}
