use crate::case_error::CaseError;
use appraise::Rule;
use spdm_basis::Bytes;
use std::str::FromStr;

// The number in a word.
fn number_in<T: FromStr>(word: &str) -> Result<T, CaseError>
where
    T::Err: Drop,
{
    word.parse::<T>().map_err(|_| CaseError::BadLine)
}

/// The bytes of a word: pieces in hexadecimal with `+` between them, each once or as often as a number behind `*` says.
/// `-` is no bytes.
pub fn bytes_in(rt: &impl AllocGlobal, word: &str) -> Result<Vec<u8>, CaseError> {
    let mut bytes = Vec::new(rt.alloc());
    if word == "-" {
        return Ok(bytes);
    }
    for piece in word.split('+') {
        let (digits, times) = piece.split_once('*').unwrap_or((piece, "1"));
        let piece = hex::decode(rt.alloc(), digits)?;
        for _ in 0..number_in::<u32>(times)? {
            bytes.extend_from_slice(&piece)?;
        }
    }
    Ok(bytes)
}

/// The rule of a word: `INDEX:TYPE:VALUE` expects a block, and `INDEX` lets it be anything.
pub fn rule_in(rt: &impl AllocGlobal, word: &str) -> Result<Rule, CaseError> {
    let Some((index, expected)) = word.split_once(':') else {
        return Ok(Rule::Skip {
            index: number_in(word)?,
        });
    };
    let (value_type, value) = expected.split_once(':').ok_or(CaseError::BadLine)?;
    Ok(Rule::Expect {
        index: number_in(index)?,
        value_type: number_in(value_type)?,
        value: Bytes::copy(rt.alloc(), &bytes_in(rt, value)?)?,
    })
}
