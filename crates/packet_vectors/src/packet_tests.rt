ghost use Rattle.std.specs.Prelude.{◌<◌, ◌≤◌, length};

use mctp_framing::{
    Assembler, DropCause, Fed, Packet, PacketFault, PacketList, PacketView, Route, cut,
};
use spdm_basis::Eid;
use std::alloc::Global;
use std::test::Fail;

// A request from end point 8 to end point 9 under tag 3.
fn request() -> Option<Route> {
    Some(Route {
        to: Eid::new(9)?,
        from: Eid::new(8)?,
        owner: true,
        tag: 3,
    })
}

#[test]
fn body_of_three_packets(rt: HostRuntime) -> Result<(), Fail> {
    let body = [5u8; 130];
    let mut sizes = Vec::new(rt.alloc());
    let mut marks = Vec::new(rt.alloc());
    for packet in cut(&body, 64, request().ok_or("no route")?) {
        sizes.push(packet.as_slice().len())?;
        marks.push(packet.as_slice().get(3).copied())?;
    }
    assert_eq!(rt; sizes.as_slice(), [68, 68, 6].as_slice());
    assert_eq!(rt;
        marks.as_slice(),
        [Some(0x8b), Some(0x1b), Some(0x6b)].as_slice()
    );
    Ok(())
}

// GET_VERSION in a packet.
const GET_VERSION: &[u8] = &[0x01, 0x08, 0x09, 0xc8, 0x05, 0x10, 0x84, 0x00, 0x00];

#[test]
fn get_version_is_parsed(rt: HostRuntime) -> Result<(), Fail> {
    let view = Packet::parse(GET_VERSION).ok().ok_or("no packet")?;
    assert!(rt; view.to == 8 && view.from == 9);
    assert!(rt; view.start && view.end && view.owner);
    assert!(rt; view.sequence == 0 && view.tag == 0);
    assert!(rt; view.payload == &GET_VERSION[4..]);
    Ok(())
}

// Packets, each with its fault.
const FAULTS: [(&[u8], Option<PacketFault>); 5] = [
    (&[], Some(PacketFault::Short)),
    (&[2, 8, 9], Some(PacketFault::Short)),
    (&[0, 8, 9, 0xc8], Some(PacketFault::WrongVersion)),
    (&[0x12, 8, 9, 0xc8], Some(PacketFault::WrongVersion)),
    (&[0xf1, 8, 9, 0xc8], None),
];

#[test]
fn short_and_wrong_version(rt: HostRuntime) {
    for (bytes, fault) in FAULTS {
        assert_eq!(rt; Packet::parse(bytes).err(), fault);
    }
}

// What a packet led to; of a whole body its length.
#[derive(Clone, Copy, Debug, PartialEq, Eq)]
enum Told {
    Whole(usize),
    More,
    Dropped(DropCause),
}

// The marks of a packet (S for SOM, E for EOM), its sequence number, tag and payload length, and what it
// leads to.
type Case = (&'static str, u8, u8, usize, Told);

// An assembler of end point 9 for packets from end point 8.
fn assembler(alloc: Global, limit: usize) -> Option<Assembler> {
    Assembler::new(alloc, Eid::new(9)?, Eid::new(8)?, limit).ok()
}

fn tell(fed: Fed<'_>) -> Told {
    match fed {
        Fed::Whole(_, body) => Told::Whole(body.len()),
        Fed::More => Told::More,
        Fed::Dropped(cause) => Told::Dropped(cause),
    }
}

// A packet from end point 8 to end point 9, with the first of these bytes.
fn packet<'a>(marks: &str, sequence: u8, tag: u8, payload: &'a [u8]) -> PacketView<'a>
    ensures sequence { result.sequence < 4 }
    ensures tag { result.tag < 8 }
{
    PacketView {
        to: 9,
        from: 8,
        start: marks.starts_with("S"),
        end: marks.ends_with("E"),
        sequence: sequence % 4,
        owner: true,
        tag: tag % 8,
        payload,
    }
}

// What packets lead to, one after the other.
const CASES: [Case; 29] = [
    // Another tag between two packets, and a packet after the last.
    ("S", 0, 1, 64, Told::More),
    ("", 1, 2, 64, Told::Dropped(DropCause::NoStart)),
    ("E", 1, 1, 2, Told::Whole(66)),
    ("E", 2, 1, 2, Told::Dropped(DropCause::NoStart)),
    // A middle packet twice.
    ("S", 0, 1, 64, Told::More),
    ("", 1, 1, 64, Told::More),
    ("", 1, 1, 64, Told::Dropped(DropCause::WrongSequence)),
    ("E", 2, 1, 2, Told::Dropped(DropCause::NoStart)),
    // A new start, with any sequence number.
    ("S", 0, 1, 64, Told::More),
    ("S", 3, 7, 10, Told::More),
    ("E", 0, 7, 10, Told::Whole(20)),
    // Five packets.
    ("S", 0, 0, 20, Told::More),
    ("", 1, 0, 20, Told::More),
    ("", 2, 0, 20, Told::More),
    ("", 3, 0, 20, Told::More),
    ("E", 0, 0, 5, Told::Whole(85)),
    // Empty, shorter and longer payloads.
    ("SE", 0, 0, 0, Told::Dropped(DropCause::WrongSize)),
    ("S", 0, 0, 20, Told::More),
    ("E", 1, 0, 0, Told::Dropped(DropCause::WrongSize)),
    ("S", 0, 0, 20, Told::More),
    ("", 1, 0, 19, Told::Dropped(DropCause::WrongSize)),
    ("S", 0, 0, 20, Told::More),
    ("E", 1, 0, 21, Told::Dropped(DropCause::WrongSize)),
    // At the limit of 130 bytes, and above it.
    ("SE", 0, 0, 130, Told::Whole(130)),
    ("SE", 0, 0, 131, Told::Dropped(DropCause::TooLong)),
    ("S", 2, 0, 65, Told::More),
    ("E", 3, 0, 65, Told::Whole(130)),
    ("S", 0, 0, 66, Told::More),
    ("E", 1, 0, 65, Told::Dropped(DropCause::TooLong)),
];

#[test]
fn packets_are_answered_by_the_rules(rt: HostRuntime) -> Result<(), Fail> {
    let bytes = [5u8; 200];
    let mut assembler = assembler(rt.alloc(), 130).ok_or("no memory")?;
    for (index, (marks, sequence, tag, len, told)) in CASES.iter().enumerate() {
        let payload = &bytes[..(*len).min(bytes.len())];
        let fed = assembler.take(packet(marks, *sequence, *tag, payload));
        assert_eq!(rt; tell(fed), *told, "case {index}");
    }
    Ok(())
}

// The packets of a body.
fn list_of(alloc: Global, body: &[u8]) -> Result<PacketList, Fail>
    requires filled { 0 < length body.now }
    requires fits { length body.now ≤ 4161 }
{
    let mut list = PacketList::new(alloc)?;
    list.fill(body, 64, request().ok_or("no route")?);
    Ok(list)
}

// What a packet of the list leads to.
fn told_of(assembler: &mut Assembler, list: &PacketList, index: usize) -> Result<Told, Fail> {
    let bytes = list.get(index).ok_or("no packet")?;
    let view = Packet::parse(bytes).ok().ok_or("no packet")?;
    Ok(tell(assembler.take(view)))
}

#[test]
fn three_packets_are_gathered(rt: HostRuntime) -> Result<(), Fail> {
    let list = list_of(rt.alloc(), &[5; 130])?;
    assert_eq!(rt; list.len(), 3);
    let mut assembler = assembler(rt.alloc(), 130).ok_or("no memory")?;
    for (index, told) in [
        (0, Told::More),
        (1, Told::More),
        (2, Told::Whole(130)),
        (0, Told::More),
        (2, Told::Dropped(DropCause::WrongSequence)),
    ] {
        assert_eq!(rt; told_of(&mut assembler, &list, index)?, told);
    }
    Ok(())
}

#[test]
fn bytes_are_gathered_in_their_order(rt: HostRuntime) -> Result<(), Fail> {
    let mut assembler = assembler(rt.alloc(), 5).ok_or("no memory")?;
    let _ = assembler.take(packet("S", 0, 0, &[1, 2, 3]));
    match assembler.take(packet("E", 1, 0, &[4, 5])) {
        Fed::Whole(_, body) => assert_eq!(rt; body, [1, 2, 3, 4, 5].as_slice()),
        _ => assert!(rt; false),
    }
    Ok(())
}

#[test]
fn largest_body_fits_into_a_list(rt: HostRuntime) -> Result<(), Fail> {
    let list = list_of(rt.alloc(), &[6; 4161])?;
    assert_eq!(rt; list.len(), 66);
    assert_eq!(rt; list.get(65), Some([1, 9, 8, 0x5b, 6].as_slice()));
    assert_eq!(rt; list.get(66), None);
    Ok(())
}

#[test]
fn cleared_list_is_empty(rt: HostRuntime) -> Result<(), Fail> {
    let mut list = list_of(rt.alloc(), &[6; 4161])?;
    list.clear();
    assert!(rt; list.is_empty());
    Ok(())
}

#[test]
fn integrity_bit_and_other_end_points(rt: HostRuntime) -> Result<(), Fail> {
    let mut assembler = assembler(rt.alloc(), 130).ok_or("no memory")?;
    let checked = packet("SE", 0, 0, &[0x85]);
    assert_eq!(rt;
        assembler.take(checked),
        Fed::Dropped(DropCause::IntegritySet)
    );
    let foreign = PacketView {
        from: 10,
        ..checked
    };
    assert_eq!(rt; assembler.take(foreign), Fed::Dropped(DropCause::NotOurs));
    for tag in 0..8u8 {
        let fed = assembler.take(packet("SE", 0, tag, &[5]));
        assert_eq!(rt; tell(fed), Told::Whole(1));
    }
    Ok(())
}
