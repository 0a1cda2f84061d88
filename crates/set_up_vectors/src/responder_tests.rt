use measurements::InventoryFault;
use responder::{Known, RspConfig, RspConfigFault};
use spdm_basis::{Bytes, Eid, Psk};
use spdm_grammar::{BlockSpec, FlagSet, Pick, Suites};
use std::alloc::Global;
use std::process::Abort;
use std::test::Fail;

// A requester of this end point, whose pre-shared key and hint are this often this byte.
fn known(alloc: Global, eid: u8, psk: &[u8], hint: &[u8]) -> Result<Known, Fail> {
    Ok(Known {
        eid: Eid::new(eid).ok_or("no end point")?,
        hint: Bytes::copy(alloc, hint)?,
        psk: Psk::new(psk).ok_or("no key")?,
    })
}

// A responder of end point 8 and DataTransferSize 42 that takes no chunks.
fn config<'a>(known: &'a [Known], blocks: &'a [BlockSpec]) -> Result<RspConfig<'a>, Fail> {
    Ok(RspConfig {
        eid: Eid::new(8).ok_or("no end point")?,
        transfer: 42,
        max: 42,
        unit: 64,
        beat: 0,
        flags: FlagSet {
            measure: true,
            heartbeat: true,
            key_update: true,
            chunk: false,
        },
        opaque: &[],
        blocks,
        known,
        suites: Suites {
            hash: Pick::Both,
            aead: Pick::Both,
        },
    })
}

// Why no responder is set up so.
fn fault(alloc: Global, config: &RspConfig<'_>) -> Option<RspConfigFault> {
    config.inventory(alloc).err()
}

#[test]
fn requester_of_another_end_point(rt: HostRuntime) -> Result<(), Fail> {
    let alloc = rt.alloc();
    let one = [known(alloc, 9, &[1], &[7; 64])?];
    assert_eq!(rt; fault(alloc, &config(&one, &[])?), None);
    Ok(())
}

#[test]
fn requester_of_the_own_end_point(rt: HostRuntime) -> Result<(), Fail> {
    let alloc = rt.alloc();
    let own = [known(alloc, 8, &[1], &[])?];
    let answer = fault(alloc, &config(&own, &[])?);
    assert_eq!(rt; answer, Some(RspConfigFault::SameEid));
    Ok(())
}

// The fault of two requesters, the first of which is of end point 9, with the key 01 and no hint.
fn fault_of_two(alloc: Global, second: Known) -> Result<Option<RspConfigFault>, Fail> {
    let two = [known(alloc, 9, &[1], &[])?, second];
    Ok(fault(alloc, &config(&two, &[])?))
}

#[test]
fn same_end_point_twice(rt: HostRuntime) -> Result<(), Fail> {
    let alloc = rt.alloc();
    let answer = fault_of_two(alloc, known(alloc, 9, &[1], &[])?)?;
    assert_eq!(rt; answer, Some(RspConfigFault::SameEid));
    Ok(())
}

#[test]
fn same_key_twice_before_a_long_hint(rt: HostRuntime) -> Result<(), Fail> {
    let alloc = rt.alloc();
    let answer = fault_of_two(alloc, known(alloc, 10, &[1], &[0; 65])?)?;
    assert_eq!(rt; answer, Some(RspConfigFault::SamePsk));
    Ok(())
}

#[test]
fn long_hint(rt: HostRuntime) -> Result<(), Fail> {
    let alloc = rt.alloc();
    let answer = fault_of_two(alloc, known(alloc, 10, &[2], &[0; 65])?)?;
    assert_eq!(rt; answer, Some(RspConfigFault::SizeRange));
    Ok(())
}

// That a set-up is out of its range.
fn out_of_range(rt: &(impl AllocGlobal + Abort), config: RspConfig<'_>) -> Result<(), Fail> {
    assert_eq!(rt; fault(rt.alloc(), &config), Some(RspConfigFault::SizeRange));
    Ok(())
}

// A responder that knows nobody and has nothing to measure.
fn lone<'a>() -> Result<RspConfig<'a>, Fail> {
    config(&[], &[])
}

// The same, which takes large messages by chunks.
fn with_chunks<'a>() -> Result<RspConfig<'a>, Fail> {
    let lone = lone()?;
    Ok(RspConfig {
        flags: FlagSet {
            chunk: true,
            ..lone.flags
        },
        ..lone
    })
}

#[test]
fn transfer_size_of_41(rt: HostRuntime) -> Result<(), Fail> {
    out_of_range(
        &rt,
        RspConfig {
            transfer: 41,
            ..lone()?
        },
    )
}

#[test]
fn message_size_above_the_transfer_size(rt: HostRuntime) -> Result<(), Fail> {
    out_of_range(&rt, RspConfig { max: 43, ..lone()? })
}

#[test]
fn message_size_of_4097(rt: HostRuntime) -> Result<(), Fail> {
    out_of_range(
        &rt,
        RspConfig {
            max: 4097,
            ..with_chunks()?
        },
    )
}

#[test]
fn unit_of_63(rt: HostRuntime) -> Result<(), Fail> {
    out_of_range(
        &rt,
        RspConfig {
            unit: 63,
            ..lone()?
        },
    )
}

#[test]
fn unit_of_1025(rt: HostRuntime) -> Result<(), Fail> {
    out_of_range(
        &rt,
        RspConfig {
            unit: 1025,
            ..lone()?
        },
    )
}

#[test]
fn opaque_data_of_1025(rt: HostRuntime) -> Result<(), Fail> {
    out_of_range(
        &rt,
        RspConfig {
            opaque: &[0; 1025],
            ..lone()?
        },
    )
}

#[test]
fn widest_set_up(rt: HostRuntime) -> Result<(), Fail> {
    let widest = RspConfig {
        max: 4096,
        unit: 1024,
        opaque: &[0; 1024],
        ..with_chunks()?
    };
    assert_eq!(rt; fault(rt.alloc(), &widest), None);
    Ok(())
}

// A block of index 0, which no block has.
fn wrong_block(alloc: Global) -> BlockSpec {
    BlockSpec {
        index: 0,
        value_type: 0,
        tcb: true,
        value: Bytes::new(alloc),
    }
}

#[test]
fn block_of_index_0(rt: HostRuntime) -> Result<(), Fail> {
    let blocks = [wrong_block(rt.alloc())];
    let index = RspConfigFault::Inventory(InventoryFault::IndexOutOfRange);
    assert_eq!(rt; fault(rt.alloc(), &config(&[], &blocks)?), Some(index));
    Ok(())
}

#[test]
fn blocks_come_last(rt: HostRuntime) -> Result<(), Fail> {
    let blocks = [wrong_block(rt.alloc())];
    out_of_range(
        &rt,
        RspConfig {
            unit: 63,
            ..config(&[], &blocks)?
        },
    )
}
