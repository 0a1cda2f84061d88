use requester::{ReqConfig, ReqConfigFault};
use spdm_basis::{Eid, Psk};
use spdm_grammar::{FlagSet, Pick, Suites};
use std::process::Abort;
use std::test::Fail;

// A requester of end point 9 and DataTransferSize 42 that takes no chunks, beside a responder of
// end point 8.
fn config<'a>() -> Result<ReqConfig<'a>, Fail> {
    Ok(ReqConfig {
        eid: Eid::new(9).ok_or("no end point")?,
        responder: Eid::new(8).ok_or("no end point")?,
        transfer: 42,
        max: 42,
        unit: 64,
        pad: 0,
        flags: FlagSet {
            measure: false,
            heartbeat: true,
            key_update: true,
            chunk: false,
        },
        hint: &[],
        psk: Psk::new(&[1]).ok_or("no key")?,
        opaque: &[],
        suites: Suites {
            hash: Pick::Both,
            aead: Pick::Both,
        },
    })
}

// That a set-up is out of its range.
fn out_of_range(rt: &impl Abort, config: ReqConfig<'_>) -> Result<(), Fail> {
    assert_eq!(rt; config.fault(), Some(ReqConfigFault::SizeRange));
    Ok(())
}

#[test]
fn transfer_size_of_41(rt: HostRuntime) -> Result<(), Fail> {
    out_of_range(
        &rt,
        ReqConfig {
            transfer: 41,
            ..config()?
        },
    )
}

#[test]
fn message_size_above_the_transfer_size(rt: HostRuntime) -> Result<(), Fail> {
    out_of_range(
        &rt,
        ReqConfig {
            max: 43,
            ..config()?
        },
    )
}

#[test]
fn unit_of_63(rt: HostRuntime) -> Result<(), Fail> {
    out_of_range(
        &rt,
        ReqConfig {
            unit: 63,
            ..config()?
        },
    )
}

#[test]
fn unit_of_1025(rt: HostRuntime) -> Result<(), Fail> {
    out_of_range(
        &rt,
        ReqConfig {
            unit: 1025,
            ..config()?
        },
    )
}

#[test]
fn padding_of_17(rt: HostRuntime) -> Result<(), Fail> {
    out_of_range(
        &rt,
        ReqConfig {
            pad: 17,
            ..config()?
        },
    )
}

#[test]
fn hint_of_65(rt: HostRuntime) -> Result<(), Fail> {
    out_of_range(
        &rt,
        ReqConfig {
            hint: &[0; 65],
            ..config()?
        },
    )
}

#[test]
fn opaque_data_of_1025(rt: HostRuntime) -> Result<(), Fail> {
    out_of_range(
        &rt,
        ReqConfig {
            opaque: &[0; 1025],
            ..config()?
        },
    )
}

#[test]
fn least_set_up(rt: HostRuntime) -> Result<(), Fail> {
    assert_eq!(rt; config()?.fault(), None);
    Ok(())
}

#[test]
fn widest_set_up(rt: HostRuntime) -> Result<(), Fail> {
    let widest = ReqConfig {
        unit: 1024,
        pad: 16,
        hint: &[0; 64],
        opaque: &[0; 1024],
        ..config()?
    };
    assert_eq!(rt; widest.fault(), None);
    Ok(())
}

#[test]
fn own_end_point_comes_first(rt: HostRuntime) -> Result<(), Fail> {
    let own = ReqConfig {
        responder: config()?.eid,
        unit: 63,
        ..config()?
    };
    assert_eq!(rt; own.fault(), Some(ReqConfigFault::SameEid));
    Ok(())
}
