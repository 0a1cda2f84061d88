use crate::case_error::CaseError;
use crate::cut_keeper::{Cut, CutKeeper};
use boot_keeper::{BootFault, next_boot};
use hex::FromHex;
use std::str::FromStr;

/// What a line asks for: `BOOTS DEVICE CALL CALL:BYTES ..`. So many boots are asked of a device of these
/// 18 bytes, in hexadecimal. Each of these calls of its keeper fails, counted from 0. Where it is a write,
/// it keeps so many of its bytes, or the first half of them.
#[derive(Drop)]
pub struct Case {
    boots: u32,
    keeper: CutKeeper,
}

// The number in a word.
fn number_in<T: FromStr>(word: &str) -> Result<T, CaseError>
where
    T::Err: Drop,
{
    word.parse::<T>().map_err(|_| CaseError::BadLine)
}

// The cut that a word asks for.
fn cut_in(word: &str) -> Result<Cut, CaseError> {
    Ok(match word.split_once(':') {
        Some((call, bytes)) => Cut {
            call: number_in(call)?,
            bytes: Some(number_in(bytes)?),
        },
        None => Cut {
            call: number_in(word)?,
            bytes: None,
        },
    })
}

impl Case {
    pub fn of(rt: &impl AllocGlobal, line: &str) -> Result<Case, CaseError> {
        let mut words = line.split(' ');
        let boots = words.next().ok_or(CaseError::BadLine)?;
        let device = words.next().ok_or(CaseError::BadLine)?;
        let mut cuts = Vec::new(rt.alloc());
        for word in words {
            cuts.push(cut_in(word)?)?;
        }
        Ok(Case {
            boots: number_in(boots)?,
            keeper: CutKeeper::new(<[u8; 18]>::from_hex(device)?, cuts),
        })
    }

    /// Tells each answer with what it left of the device.
    pub fn run(mut self, rt: &(impl Print + AllocGlobal)) -> Result<(), CaseError> {
        for _ in 0..self.boots {
            let answer = next_boot(&mut self.keeper);
            let device = hex::encode(rt.alloc(), self.keeper.device)?;
            match answer {
                Ok(boot) => print!(rt; "{boot} {device} ")?,
                Err(BootFault::KeeperFault) => print!(rt; "fault {device} ")?,
                Err(BootFault::Spent) => print!(rt; "spent {device} ")?,
            }
        }
        println!(rt; ".")?;
        Ok(())
    }
}
