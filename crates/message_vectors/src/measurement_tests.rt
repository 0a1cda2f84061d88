use measurements::{Inventory, InventoryFault};
use spdm_basis::{Bytes, Frame, OutOfMemory};
use spdm_grammar::BlockSpec;
use std::alloc::Global;
use std::test::Fail;

// A block of type 0 with 32 bytes.
fn block(alloc: Global, index: u8) -> Result<BlockSpec, OutOfMemory> {
    Ok(BlockSpec {
        index,
        value_type: 0,
        tcb: true,
        value: Bytes::copy(alloc, &[0xa5; 32])?,
    })
}

#[test]
fn measurement_block(rt: HostRuntime) -> Result<(), Fail> {
    let blocks = [block(rt.alloc(), 1)?];
    let inventory = Inventory::new(rt.alloc(), &blocks)?;
    let mut record = Frame::new();
    assert_eq!(rt; inventory.record(255, &mut record), Ok(1));
    assert_eq!(rt; record.as_slice().len(), 39);
    assert!(rt; record.as_slice()[..7] == [0x01, 0x01, 0x23, 0x00, 0x00, 0x20, 0x00]);
    assert!(rt; record.as_slice()[7..] == [0xa5; 32]);
    Ok(())
}

#[test]
fn index_0(rt: HostRuntime) -> Result<(), Fail> {
    let zero = [block(rt.alloc(), 0)?];
    let fault = Inventory::new(rt.alloc(), &zero).err();
    assert_eq!(rt; fault, Some(InventoryFault::IndexOutOfRange));
    Ok(())
}

#[test]
fn index_taken(rt: HostRuntime) -> Result<(), Fail> {
    let twice = [block(rt.alloc(), 1)?, block(rt.alloc(), 1)?];
    let fault = Inventory::new(rt.alloc(), &twice).err();
    assert_eq!(rt; fault, Some(InventoryFault::IndexTaken));
    Ok(())
}

// SHA-256 of the blocks 1 and 7, by another program.
const SUMMARY: [u8; 32] = [
    0x80, 0xd8, 0xf2, 0xd3, 0x6b, 0x99, 0x51, 0xd9, 0x88, 0xe4, 0xbc, 0xfb, 0x3a, 0xd3, 0x19, 0x4d,
    0xc6, 0x6d, 0xc1, 0x8e, 0x23, 0x7c, 0x0c, 0x39, 0xb4, 0xcf, 0x34, 0xf5, 0x8e, 0x86, 0xeb, 0xe7,
];

#[test]
fn summary_by_rising_index(rt: HostRuntime) -> Result<(), Fail> {
    let blocks = [block(rt.alloc(), 7)?, block(rt.alloc(), 1)?];
    let inventory = Inventory::new(rt.alloc(), &blocks)?;
    assert!(rt; inventory.total() == 2);
    assert!(rt; inventory.summary(1) == Some(SUMMARY));
    assert!(rt; inventory.summary(255) == Some(SUMMARY));
    assert!(rt; inventory.summary(0) == None);
    Ok(())
}

#[test]
fn summary_of_nothing(rt: HostRuntime) -> Result<(), Fail> {
    let none = Inventory::new(rt.alloc(), &[])?;
    assert!(rt; none.summary(255) == Some([0; 32]));
    Ok(())
}
