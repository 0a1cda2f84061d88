use crate::case_error::CaseError;
use running_hash::RunningHash;
use spdm_basis::HashAlg;
use spdm_command::Outcome;

// The most lines that are told as they are.
const LINES: usize = 6;

/// The digest of some bytes, in hexadecimal.
pub fn digest_of(rt: &impl AllocGlobal, bytes: &[u8]) -> Result<String, CaseError> {
    let mut hash = RunningHash::new(HashAlg::Sha256);
    hash.push(bytes);
    Ok(hex::encode(rt.alloc(), hash.finish().as_slice())?)
}

// Whether bytes are a few lines of printable characters.
fn are_lines(bytes: &[u8]) -> bool {
    bytes
        .iter()
        .all(|byte| *byte == b'\n' || (*byte >= b' ' && *byte <= b'~'))
        && bytes.iter().filter(|byte| **byte == b'\n').count() <= LINES
}

/// Tells what a case came to, with what it wrote: a few lines as they are, all else by its length and digest.
pub fn tell(
    rt: &(impl Print + AllocGlobal),
    name: &str,
    outcome: Outcome,
    written: &[u8],
) -> Result<(), CaseError> {
    println!(rt; "{name}: {outcome:?}")?;
    if !are_lines(written) {
        let (size, digest) = (written.len(), digest_of(rt, written)?);
        println!(rt; "    {size} bytes {digest}")?;
        return Ok(());
    }
    for line in str::from_utf8(written).unwrap_or("").lines() {
        println!(rt; "    {line}")?;
    }
    Ok(())
}

/// Tells what a device holds.
pub fn tell_device(rt: &(impl Print + AllocGlobal), device: &[u8]) -> Result<(), CaseError> {
    let digits = hex::encode(rt.alloc(), device)?;
    println!(rt; "    device {digits}")?;
    Ok(())
}
