use crate::ends::{Ends, policy};
use appraise::Appraisal;
use attestor::Progressed;
use std::process::Abort;
use std::test::Fail;

// What an attestation comes to under the policy in which the block of index `other` has another value.
fn appraised(rt: &impl AllocGlobal, transfer: u32, other: Option<u8>) -> Result<Progressed, Fail> {
    let alloc = rt.alloc();
    Ends::new(alloc, transfer, policy(alloc, other)?)?.decided()
}

// Twelve blocks come in one message, and in chunks. The responder that has what is expected is trusted, and of one block
// that differs the index is told.
#[test]
fn twelve_blocks(rt: HostRuntime) -> Result<(), Fail> {
    for transfer in [42, 1024] {
        let trusted = Progressed::Verdict(Appraisal::Trusted);
        assert_eq!(rt; appraised(&rt, transfer, None)?, trusted);
        for index in [1, 7, 12] {
            let differs = Progressed::Verdict(Appraisal::Differs { index });
            assert_eq!(rt; appraised(&rt, transfer, Some(index))?, differs);
        }
    }
    Ok(())
}
