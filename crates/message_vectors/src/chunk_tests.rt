use chunking::{ChunkFault, Collected, Collector, SplitFault, Splitter};
use spdm_grammar::ChunkView;
use std::test::Fail;

// A message of 27 bytes, one more than one chunk holds at DataTransferSize 42.
const MESSAGE: [u8; 27] = [7; 27];

#[test]
fn message_of_one_chunk_fits(rt: HostRuntime) {
    let fits = Splitter::new(&MESSAGE[..26], 42, 0).err();
    assert_eq!(rt; fits, Some(SplitFault::Fits));
}

#[test]
fn first_of_two_chunks(rt: HostRuntime) -> Result<(), Fail> {
    let splitter = Splitter::new(&MESSAGE, 42, 9)?;
    let first = splitter.current().ok_or("no chunk")?;
    assert!(rt; !first.last && first.handle == 9 && first.number == 0);
    assert_eq!(rt; first.large, Some(27));
    assert_eq!(rt; first.chunk.len(), 26);
    Ok(())
}

#[test]
fn second_of_two_chunks(rt: HostRuntime) -> Result<(), Fail> {
    let mut splitter = Splitter::new(&MESSAGE, 42, 9)?;
    splitter.advance();
    let second = splitter.current().ok_or("no chunk")?;
    assert!(rt; second.last && second.handle == 9 && second.number == 1);
    assert_eq!(rt; second.large, None);
    assert_eq!(rt; second.chunk.len(), 1);
    Ok(())
}

#[test]
fn no_third_chunk(rt: HostRuntime) -> Result<(), Fail> {
    let mut splitter = Splitter::new(&MESSAGE, 42, 9)?;
    splitter.advance();
    splitter.advance();
    assert!(rt; splitter.current().is_none());
    Ok(())
}

#[test]
fn transfer_size_of_41(rt: HostRuntime) {
    let small = Splitter::new(&[7u8; 27], 41, 0).err();
    assert_eq!(rt; small, Some(SplitFault::TransferTooSmall));
}

// A chunk that is not the first, under handle 0.
fn later(number: u16, last: bool, chunk: &[u8]) -> ChunkView<'_> {
    ChunkView {
        last,
        handle: 0,
        number,
        large: None,
        chunk,
    }
}

// The first chunk of a message of 48 bytes, and the bytes behind it.
const FIRST: ChunkView<'static> = ChunkView {
    last: false,
    handle: 0,
    number: 0,
    large: Some(48),
    chunk: &[1; 26],
};

const REST: [u8; 22] = [2; 22];

const OUT_OF_ORDER: Collected<'static> = Collected::Refused(ChunkFault::WrongNumber);

#[test]
fn later_chunk_before_the_first(rt: HostRuntime) {
    let mut collector = Collector::new(100);
    assert_eq!(rt; collector.take(later(1, true, &REST)), OUT_OF_ORDER);
}

#[test]
fn chunk_out_of_order(rt: HostRuntime) {
    let mut collector = Collector::new(100);
    assert_eq!(rt; collector.take(FIRST), Collected::More);
    assert_eq!(rt; collector.take(later(2, true, &REST)), OUT_OF_ORDER);
    match collector.take(later(1, true, &REST)) {
        Collected::Whole(message) => assert_eq!(rt; message.len(), 48),
        _ => assert!(rt; false),
    }
    assert_eq!(rt; collector.take(later(2, true, &REST)), OUT_OF_ORDER);
}

#[test]
fn copy_goes_on_by_itself(rt: HostRuntime) {
    let mut collector = Collector::new(100);
    assert_eq!(rt; collector.take(FIRST), Collected::More);
    let mut kept = collector.copy();
    let early = Collected::Refused(ChunkFault::EarlyLast);
    assert_eq!(rt; kept.take(later(1, true, &REST[..21])), early);
    kept.clear();
    assert_eq!(rt; kept.take(later(1, true, &REST)), OUT_OF_ORDER);
}
