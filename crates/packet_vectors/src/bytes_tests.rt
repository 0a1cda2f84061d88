use spdm_basis::{
    Bytes, Eid, Failed, FileSeeds, Frame, InFault, MemSeeds, MemSink, MemSource, OutFault, Psk,
    Seeds, SessionId, read_all, write_all,
};
use std::test::Fail;

#[test]
fn a_copy_holds_its_bytes(rt: HostRuntime) -> Result<(), Fail> {
    let copy = Bytes::copy(rt.alloc(), b"abc")?;
    assert_eq!(rt; copy.as_slice(), b"abc".as_slice());
    Ok(())
}

#[test]
fn a_source_is_read_to_its_end(rt: HostRuntime) -> Result<(), Fail> {
    let mut source = MemSource::new(rt.alloc(), b"abc", &[])?;
    let all = read_all(rt.alloc(), &mut source, 3)?;
    assert_eq!(rt; all.as_slice(), b"abc".as_slice());
    Ok(())
}

#[test]
fn a_longer_text_is_not_read(rt: HostRuntime) -> Result<(), Fail> {
    let mut source = MemSource::new(rt.alloc(), b"abcd", &[])?;
    let answer = read_all(rt.alloc(), &mut source, 3).err();
    assert_eq!(rt; answer, Some(InFault::TooLong));
    Ok(())
}

#[test]
fn a_failed_read_takes_nothing(rt: HostRuntime) -> Result<(), Fail> {
    let mut source = MemSource::new(rt.alloc(), b"abcd", &[0])?;
    let answer = read_all(rt.alloc(), &mut source, 3).err();
    assert_eq!(rt; answer, Some(InFault::ReadFault));
    let all = read_all(rt.alloc(), &mut source, 4)?;
    assert_eq!(rt; all.as_slice(), b"abcd".as_slice());
    Ok(())
}

#[test]
fn a_sink_holds_what_was_written(rt: HostRuntime) -> Result<(), Fail> {
    let mut sink = MemSink::new(rt.alloc(), 3, &[])?;
    assert!(rt; sink.as_slice().is_empty());
    write_all(&mut sink, b"abc")?;
    assert_eq!(rt; sink.as_slice(), b"abc".as_slice());
    Ok(())
}

#[test]
fn a_failed_write_leaves_nothing(rt: HostRuntime) -> Result<(), Fail> {
    let mut sink = MemSink::new(rt.alloc(), 4, &[0])?;
    assert_eq!(rt; write_all(&mut sink, b"abcd"), Err(OutFault::WriteFault));
    assert!(rt; sink.as_slice().is_empty());
    Ok(())
}

#[test]
fn a_full_sink_keeps_what_it_took(rt: HostRuntime) -> Result<(), Fail> {
    let mut sink = MemSink::new(rt.alloc(), 3, &[])?;
    assert_eq!(rt; write_all(&mut sink, b"abcd"), Err(OutFault::WriteFault));
    assert_eq!(rt; sink.as_slice(), b"abc".as_slice());
    Ok(())
}

#[test]
fn end_points_at_their_borders(rt: HostRuntime) {
    for (number, is_end_point) in [(0, false), (7, false), (8, true), (254, true), (255, false)] {
        assert_eq!(rt; Eid::new(number).is_some(), is_end_point, "at {number}");
    }
}

#[test]
fn keys_at_their_borders(rt: HostRuntime) {
    assert!(rt; Psk::new(&[]).is_none());
    assert!(rt; Psk::new(&[9]).is_some_and(|psk| psk.as_slice() == [9].as_slice()));
    assert!(rt; Psk::new(&[9; 64]).is_some_and(|psk| psk.as_slice() == [9; 64].as_slice()));
    assert!(rt; Psk::new(&[9; 65]).is_none());
}

#[test]
fn session_id_is_four_bytes(rt: HostRuntime) {
    let id = SessionId { req: 1, rsp: 1 };
    assert_eq!(rt; id.bytes(), [0x01, 0x00, 0x01, 0x00]);
    let id = SessionId {
        req: 0x0201,
        rsp: 0x0403,
    };
    assert_eq!(rt; id.bytes(), [0x01, 0x02, 0x03, 0x04]);
}

#[test]
fn lent_bytes_are_written_in_place(rt: HostRuntime) -> Result<(), Fail> {
    let mut frame = Frame::new();
    frame.extend(b"abc")?;
    frame.as_mut_slice().reverse();
    assert_eq!(rt; frame.as_slice(), b"cba".as_slice());
    Ok(())
}

#[test]
fn seeds_in_their_order(rt: HostRuntime) -> Result<(), Fail> {
    let mut seeds = MemSeeds::new(rt.alloc(), &[[1; 32], [2; 32]], &[1])?;
    assert_eq!(rt; seeds.seed(), Ok([1; 32]));
    assert_eq!(rt; seeds.seed(), Err(Failed));
    assert_eq!(rt; seeds.seed(), Ok([2; 32]));
    assert_eq!(rt; seeds.seed(), Err(Failed));
    Ok(())
}

// Two seeds of the system are two.
#[test]
fn seeds_of_the_system(rt: HostRuntime) -> Result<(), Fail> {
    let mut seeds = FileSeeds::new(&rt);
    let first = seeds.seed()?;
    assert!(rt; seeds.seed()? != first);
    Ok(())
}
