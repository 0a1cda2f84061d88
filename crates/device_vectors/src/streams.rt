use device_command::{Outcome, spdm_device};
use spdm_basis::{MemSeeds, MemSink, MemSource};
use std::process::Abort;
use std::test::Fail;

const CONFIGURATION: &[u8] = b"responder 8 1024 4096 64 30 mhkc
requester 9 1024 4096 64 0 hkc 71 31323334353637383930313233343536 -
end
";

// A session of a requester with the seed 01 .., as the frames of the device, up to PSK_FINISH. Of an independent program.
const OPENING: &str = "\
010900010809c80510840000011900010809c90512e1000000000000c06402000004000000100000013500010809ca0512e3\
0400300001020000000001000000000000000000000000000000000000000220000003200100042000000520010001320001\
0809cb0512e60000010001002000000071953a64d0163d0ece3c1edcfe1c347cc6955099432555ca21000000000000000001\
4400010809cc060100010000003700c6d3847d7e8e9fc0a8811fd28d2a4a6ac19769b0f2c7b0ee12bf783b8d7e2d41f9473d\
b2f76b258f72f58c310beb0c7d45120b01de0146";

// What the device with the seed 02 .. writes. Of an independent program, but for the two lines of the session.
const OPENED: &str = "\
041000746f207220616e737765726564203834010d00010908c0051004000000010012041000746f207220616e7377657265\
64206531011900010908c1051261000000000000c86802000004000000100000041000746f207220616e7377657265642065\
33013900010908c2051263040034000102020000000000000001000000000000000000000000000000000000000220000003\
2001000420000005200100041000746f207220616e737765726564206536014400010908830512661e000100000020000000\
20c6cb9a4bccf741c96cde2ceef453dc00337910cf50e9bb0000000000000000767ddcc8f08dde7e24485b2361ff669bb44d\
7201110001090853ea44f9678b6da4d7969bf262a504190073657373696f6e20713120303130303031303020626567616e04\
1000746f207220616e737765726564206537012400010908c406010001000000170014a89d4b4c1bda9540330d36bc46226a\
2b038012dcc915041a0073657373696f6e207131203031303030313030206f70656e6564";

// Its data behind that: 6869, which is answered with 6f6b, and given twice more; 00, behind which seconds pass, a late reply
// comes, and it is given again; no data, given twice; and 0102, which wait at the end. Of an independent program.
const DATA: &str = "\
0304006e6f6e65012200010809cd060100010000001500e965073fe0909560817ae8117004802785a403b695030a00726570\
6c792036663662012200010809cd060100010000001500e965073fe0909560817ae8117004802785a403b695012200010809\
cd060100010000001500e965073fe0909560817ae8117004802785a403b695012100010809ce060100010001001400abf8ed\
128bdd75dabab20e4a693f881d5afd55cb02050000000308007265706c79203030012100010809ce060100010001001400ab\
f8ed128bdd75dabab20e4a693f881d5afd55cb012000010809cf060100010002001300ae4a10a6920e6cae5dcd3543c15734\
d42ca616012000010809cf060100010002001300ae4a10a6920e6cae5dcd3543c15734d42ca616012200010809c806010001\
000300150019f8e5651cfe956a155b977b55ef32ec5decacd3e2";

// What the device writes. Of an independent program.
const ANSWERED: &str = "\
04150064617461207131203031303030313030203638363904040072206f6b041300746f20722074616b656e203031303030\
313030012200010908c50601000100000015007023664fa61f1461e68e7905616940a52d0c93a6eb040900746f2072207361\
6d65012200010908c50601000100000015007023664fa61f1461e68e7905616940a52d0c93a6eb040900746f20722073616d\
65012200010908c50601000100000015007023664fa61f1461e68e7905616940a52d0c93a6eb041300646174612071312030\
31303030313030203030041300746f20722074616b656e203031303030313030012000010908c60601000100010013001e3f\
d6042c654af2d54f736ed324ded97c1b3f040900746f20722073616d65012000010908c60601000100010013001e3fd6042c\
654af2d54f736ed324ded97c1b3f04120064617461207131203031303030313030202d041300746f20722074616b656e2030\
31303030313030012000010908c70601000100020013001cf65d87ce53372c9f0e3fcb1b8335b1f13e00040900746f207220\
73616d65012000010908c70601000100020013001cf65d87ce53372c9f0e3fcb1b8335b1f13e000415006461746120713120\
30313030303130302030313032";

// GET_VERSION, which ends the session: what it leads to is the same as at first, but for the line of the session.
const GET_VERSION: &str = "010900010809c80510840000";

const ENDED: &str = "\
041000746f207220616e737765726564203834010d00010908c005100400000001001204180073657373696f6e2071312030\
3130303031303020676f6e65";

// 60 seconds, twice the HeartbeatPeriod, and the line of the session.
const SILENCE: &str = "023c000000";

const DROPPED: &str = "04180073657373696f6e20713120303130303031303020676f6e65";

// What the command came to on this stream, and what it wrote, in hexadecimal.
fn run(rt: &impl AllocGlobal, stream: &[u8]) -> Result<(Outcome, String), Fail> {
    let mut input = Vec::from_slice(rt.alloc(), CONFIGURATION)?;
    input.extend_from_slice(stream)?;
    let words = Vec::new(rt.alloc());
    let mut source = MemSource::new(rt.alloc(), input.as_slice(), &[])?;
    let mut sink = MemSink::new(rt.alloc(), 4096, &[])?;
    let mut seeds = MemSeeds::new(rt.alloc(), &[[2; 32]], &[])?;
    let outcome = spdm_device(
        rt.alloc(),
        words.as_slice(),
        &mut source,
        &mut sink,
        &mut seeds,
    );
    Ok((outcome, hex::encode(rt.alloc(), sink.as_slice())?))
}

// What is written of these frames behind the opening of a session.
fn behind_opening(rt: &(impl AllocGlobal + Abort), frames: &str) -> Result<String, Fail> {
    let mut stream = hex::decode(rt.alloc(), OPENING)?;
    let more = hex::decode(rt.alloc(), frames)?;
    stream.extend_from_slice(more.as_slice())?;
    let (outcome, written) = run(rt, stream.as_slice())?;
    assert_eq!(rt; outcome, Outcome::Done);
    let behind = written
        .as_str()
        .strip_prefix(OPENED)
        .ok_or("another opening")?;
    Ok(String::from_str(rt.alloc(), behind)?)
}

#[test]
fn data_are_answered(rt: HostRuntime) -> Result<(), Fail> {
    assert_eq!(rt; behind_opening(&rt, DATA)?.as_str(), ANSWERED);
    Ok(())
}

#[test]
fn session_is_ended(rt: HostRuntime) -> Result<(), Fail> {
    assert_eq!(rt; behind_opening(&rt, GET_VERSION)?.as_str(), ENDED);
    Ok(())
}

#[test]
fn silent_session_is_dropped(rt: HostRuntime) -> Result<(), Fail> {
    assert_eq!(rt; behind_opening(&rt, SILENCE)?.as_str(), DROPPED);
    Ok(())
}

#[test]
fn other_lines_are_bad_frames(rt: HostRuntime) -> Result<(), Fail> {
    let lines: [&[u8]; 7] = [
        b"\x03\x00\x00",
        b"\x03\x05\x00none ",
        b"\x03\x06\x00reply ",
        b"\x03\x07\x00reply 0",
        b"\x03\x0b\x00reply q1 00",
        b"\x04\x04\x00none",
        b"\x03\x04\x00non",
    ];
    for line in lines {
        let mut stream = Vec::from_slice(rt.alloc(), b"\x03\x08\x00reply 0A\x03\x04\x00none")?;
        stream.extend_from_slice(line)?;
        let (outcome, written) = run(&rt, stream.as_slice())?;
        assert_eq!(rt; outcome, Outcome::BadFrame { at: 18 });
        assert_eq!(rt; written.as_str(), "");
    }
    Ok(())
}
