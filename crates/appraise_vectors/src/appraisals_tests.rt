use appraise::{Appraisal, Policy, PolicyFault, Rule, appraise};
use spdm_basis::Bytes;
use std::alloc::Global;
use std::test::Fail;

// The policy `expect 1 0` with 32 zero bytes.
fn zeros_expected(alloc: Global) -> Result<Policy, Fail> {
    let rules = [Rule::Expect {
        index: 1,
        value_type: 0,
        value: Bytes::copy(alloc, &[0; 32])?,
    }];
    Ok(Policy::new(alloc, &rules)?)
}

// The block of an index with 32 zero bytes.
fn zeros(index: u8) -> [u8; 39] {
    let mut block = [0; 39];
    block[..7].copy_from_slice(&[index, 1, 0x23, 0, 0, 0x20, 0]);
    block
}

// The block that is expected, none, the beginning of one, and one of another index; and a rule that makes no policy.
#[test]
fn appraisals(rt: HostRuntime) -> Result<(), Fail> {
    let policy = zeros_expected(rt.alloc())?;
    let rows = [
        (&zeros(1)[..], Appraisal::Trusted),
        (&[], Appraisal::Missing { index: 1 }),
        (&[1, 1], Appraisal::Malformed { at: 0 }),
        (&zeros(2), Appraisal::Unknown { index: 2 }),
    ];
    for (record, want) in rows {
        assert_eq!(rt; appraise(&policy, record), want);
    }
    let policy = Policy::new(rt.alloc(), &[Rule::Skip { index: 0 }]);
    assert!(rt; matches!(policy, Err(PolicyFault::IndexOutOfRange)));
    Ok(())
}
