use crate::case::Case;
use crate::case_error::CaseError;
use running_hash::RunningHash;
use spdm_basis::HashAlg;
use spdm_command::Outcome;

/// The traces behind packets that are injected, as one digest. The ends are shown before and behind each.
#[derive(Drop)]
pub struct Sweep<'a> {
    case: &'a Case,
    traces: RunningHash,
    is_done: bool,
}

impl<'a> Sweep<'a> {
    pub fn new(case: &'a Case) -> Sweep<'a> {
        Sweep {
            case,
            traces: RunningHash::new(HashAlg::Sha256),
            is_done: true,
        }
    }

    // Takes the trace of the script with these lines behind.
    fn take(&mut self, rt: &impl AllocGlobal, lines: &str) -> Result<(), CaseError> {
        let behind = format!(in rt.alloc(); "show\n{lines}show\n")?;
        let ran = self.case.run_behind(rt, behind.as_str())?;
        self.is_done = self.is_done && ran.outcome == Outcome::Done;
        self.traces.push(ran.written.as_slice());
        Ok(())
    }

    /// A message of four bytes of each code, behind the header of a packet and the type of its body.
    pub fn codes(mut self, rt: &impl AllocGlobal, header: &[u8]) -> Result<String, CaseError> {
        for code in 0..=255 {
            let mut packet = Vec::from_slice(rt.alloc(), header)?;
            packet.extend_from_slice(&[0x12, code, 0, 0])?;
            self.take(rt, inject(rt, packet.as_slice())?.as_str())?;
        }
        self.told(rt)
    }

    /// A packet with 0, with one more and with 65,535, or the most that fits, in each of these fields.
    pub fn fields(
        mut self,
        rt: &impl AllocGlobal,
        packet: &[u8],
        fields: &[(usize, usize)],
    ) -> Result<String, CaseError> {
        for (place, size) in fields {
            for variant in variants(rt, packet, place.saturating_add(5), *size)?.iter() {
                self.take(rt, inject(rt, variant.as_slice())?.as_str())?;
            }
        }
        self.told(rt)
    }

    /// A packet at each shorter length, one after another.
    pub fn cuts(mut self, rt: &impl AllocGlobal, packet: &[u8]) -> Result<String, CaseError> {
        let mut injects = String::new(rt.alloc());
        for size in 0..packet.len() {
            let (cut, _) = packet.split_at(size);
            injects.push_str(inject(rt, cut)?.as_str())?;
        }
        self.take(rt, injects.as_str())?;
        self.told(rt)
    }

    // The digest of all traces, where each script was run to its end.
    fn told(self, rt: &impl AllocGlobal) -> Result<String, CaseError> {
        if !self.is_done {
            return Ok(String::from_str(rt.alloc(), "a script was not done")?);
        }
        Ok(hex::encode(rt.alloc(), self.traces.finish().as_slice())?)
    }
}

// A line of a script that injects a packet.
fn inject(rt: &impl AllocGlobal, packet: &[u8]) -> Result<String, CaseError> {
    if packet.is_empty() {
        return Ok(String::from_str(rt.alloc(), "inject -\n")?);
    }
    let digits = hex::encode(rt.alloc(), packet)?;
    Ok(format!(in rt.alloc(); "inject {digits}\n")?)
}

// The number in a field of a packet, lower byte first.
fn number_in(field: &[u8]) -> u64 {
    field.iter().rev().fold(0, |sum: u64, byte| sum.wrapping_mul(256) | u64::from(*byte))
}

// A packet with 0, with one more and with 65,535, or the most that fits, in a field that begins at this place.
fn variants(
    rt: &impl AllocGlobal,
    packet: &[u8],
    at: usize,
    size: usize,
) -> Result<Vec<Vec<u8>>, CaseError> {
    let mut variants = Vec::new(rt.alloc());
    let field = packet
        .get(at..at.saturating_add(size))
        .ok_or(CaseError::BadLine)?;
    let number = number_in(field);
    let most = if size == 1 { 255 } else { 65_535 };
    for new in [0, number.wrapping_add(1), most] {
        let mut variant = Vec::from_slice(rt.alloc(), packet)?;
        for (place, byte) in new.to_le_bytes().iter().take(size).enumerate() {
            if let Some(old) = variant.get_mut(at.saturating_add(place)) {
                *old = *byte;
            }
        }
        variants.push(variant)?;
    }
    Ok(variants)
}
