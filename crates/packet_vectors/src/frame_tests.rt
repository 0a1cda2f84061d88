ghost use Rattle.std.specs.Prelude.{◌≡◌, ◌∷◌, [], IfOk};

use frame_stream::{
    FrameFault, FrameKind, FrameReader, Kinds, read_text, write_line_frame, write_packet_frame,
    write_packet_frames,
};
use mctp_framing::PacketList;
use spdm_basis::{InFault, MemSink, MemSource, OutFault, Source};
use std::alloc::Global;
use std::test::Fail;

const SERVED: Kinds = Kinds {
    ticks: true,
    commands: false,
};

const DRIVEN: Kinds = Kinds {
    ticks: false,
    commands: true,
};

// A configuration of seven bytes, and a stream behind it.
const INPUT: &[u8; 17] = b"ab\nend\n0123456789";

#[test]
fn a_text_ends_behind_its_last_line(rt: HostRuntime) -> Result<(), Fail> {
    let mut source = MemSource::new(rt.alloc(), INPUT, &[])?;
    let read = read_text(rt.alloc(), &mut source, 7)?;
    assert_eq!(rt; read.text.as_slice(), b"ab\nend\n".as_slice());
    Ok(())
}

#[test]
fn a_text_has_at_most_so_many_bytes(rt: HostRuntime) -> Result<(), Fail> {
    let mut source = MemSource::new(rt.alloc(), INPUT, &[])?;
    let answer = read_text(rt.alloc(), &mut source, 6).err();
    assert_eq!(rt; answer, Some(InFault::TooLong));
    Ok(())
}

#[test]
fn reading_a_text_fails(rt: HostRuntime) -> Result<(), Fail> {
    let mut source = MemSource::new(rt.alloc(), INPUT, &[0])?;
    let answer = read_text(rt.alloc(), &mut source, 7).err();
    assert_eq!(rt; answer, Some(InFault::ReadFault));
    Ok(())
}

// The answer to the second call, where the first gave a frame of four bytes.
fn second<S: Source>(reader: &mut FrameReader, source: &mut S) -> Option<FrameFault> {
    match reader.next(source) {
        Ok(Some(FrameKind::Packet)) => reader.next(source).err(),
        _ => None,
    }
}

#[test]
fn commands_are_read_where_they_are_allowed(rt: HostRuntime) -> Result<(), Fail> {
    let mut reader = FrameReader::new(rt.alloc(), DRIVEN, &[3, 2, 0, b'h', b'i', 2, 0, 0, 0, 0])?;
    let mut source = MemSource::new(rt.alloc(), b"", &[])?;
    assert_eq!(rt; reader.next(&mut source), Ok(Some(FrameKind::Command)));
    assert_eq!(rt; reader.content(), b"hi".as_slice());
    let bad = FrameFault::BadFrame { at: 5 };
    assert_eq!(rt; reader.next(&mut source), Err(bad));
    Ok(())
}

#[test]
fn a_stream_has_at_most_so_many_bytes(rt: HostRuntime) -> Result<(), Fail> {
    let too_long = Some(FrameFault::TooLong);
    let bad = Some(FrameFault::BadFrame { at: 4 });
    let rows: [(&[u8], u64, Option<FrameFault>); 7] = [
        (&[1, 1, 0, 9], 4, None),
        (&[1, 1, 0, 9, 1], 4, too_long),
        (&[1, 1, 0, 9, 7], 4, too_long),
        (&[1, 1, 0, 9, 7, 8], 5, bad),
        (&[1, 1, 0, 9, 1], 5, bad),
        (&[1, 1, 0, 9, 1, 0, 0], 6, too_long),
        (&[1, 1, 0, 9, 1, 0, 0], 7, None),
    ];
    for (row, limit, answer) in rows {
        let mut reader = FrameReader::with_limit(rt.alloc(), SERVED, b"", limit)?;
        let mut source = MemSource::new(rt.alloc(), row, &[])?;
        assert_eq!(rt; second(&mut reader, &mut source), answer, "{row:?}");
    }
    Ok(())
}

#[test]
fn reading_fails(rt: HostRuntime) -> Result<(), Fail> {
    let mut reader = FrameReader::new(rt.alloc(), SERVED, &[1, 3, 0, 7])?;
    let mut source = MemSource::new(rt.alloc(), &[8], &[1])?;
    assert_eq!(rt; reader.next(&mut source), Err(FrameFault::ReadFault));
    Ok(())
}

#[test]
fn frames_are_written(rt: HostRuntime) -> Result<(), Fail> {
    let mut sink = MemSink::new(rt.alloc(), 10, &[])?;
    write_packet_frame(&mut sink, &[9, 8])?;
    write_line_frame(&mut sink, b"ok")?;
    assert_eq!(rt;
        sink.as_slice(),
        [1, 2, 0, 9, 8, 4, 2, 0, b'o', b'k'].as_slice()
    );
    Ok(())
}

#[test]
fn a_frame_is_cut_where_no_room_is_left(rt: HostRuntime) -> Result<(), Fail> {
    let mut sink = MemSink::new(rt.alloc(), 2, &[])?;
    assert_eq!(rt;
        write_packet_frame(&mut sink, &[1]),
        Err(OutFault::WriteFault)
    );
    assert_eq!(rt; sink.as_slice(), [1, 1].as_slice());
    Ok(())
}

// The packets 09 08, and no bytes.
fn two_packets(alloc: Global) -> Result<PacketList, Fail>
    ensures { IfOk result (λ packets. packets ≡ (9 ∷ 8 ∷ []) ∷ [] ∷ []) }
{
    let mut packets = PacketList::new(alloc)?;
    packets.push(&[9, 8]);
    packets.push(&[]);
    Ok(packets)
}

#[test]
fn no_packets_are_no_frames(rt: HostRuntime) -> Result<(), Fail> {
    let mut sink = MemSink::new(rt.alloc(), 12, &[])?;
    write_packet_frames(&mut sink, &PacketList::new(rt.alloc())?)?;
    assert_eq!(rt; sink.as_slice(), [].as_slice());
    Ok(())
}

#[test]
fn packets_are_written(rt: HostRuntime) -> Result<(), Fail> {
    let mut sink = MemSink::new(rt.alloc(), 12, &[])?;
    write_packet_frames(&mut sink, &two_packets(rt.alloc())?)?;
    assert_eq!(rt; sink.as_slice(), [1, 2, 0, 9, 8, 1, 0, 0].as_slice());
    Ok(())
}

#[test]
fn packets_are_written_as_far_as_room_goes(rt: HostRuntime) -> Result<(), Fail> {
    let mut sink = MemSink::new(rt.alloc(), 7, &[])?;
    assert_eq!(rt;
        write_packet_frames(&mut sink, &two_packets(rt.alloc())?),
        Err(OutFault::WriteFault)
    );
    assert_eq!(rt; sink.as_slice(), [1, 2, 0, 9, 8, 1, 0].as_slice());
    Ok(())
}
