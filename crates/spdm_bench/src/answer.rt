ghost use Rattle.std.specs.Prelude.{◌≡◌, ◌≤◌, IfOk, replicate, string_bytes};
ghost use Rattle.hex.specs.Hex.{encode_lower};
ghost use Rattle.spdm_bench.specs.Repeat.{last_tag, last_code};

use crate::bench_error::BenchError;
use crate::repeat::{authenticate_all, seal_all};
use std::alloc::Global;

/// The last tag of `count` messages of `size` bytes, in hexadecimal. The first is all zeros, and each other is the one
/// before it sealed. A message has at most 65,535 bytes.
pub fn last_tag(alloc: Global, size: usize, count: u64) -> Result<String, BenchError>
    requires { size ≤ 65535 }
    ensures { IfOk result (λ text. string_bytes text
        ≡ encode_lower (last_tag (replicate size 0) count)) }
{
    let mut text = vec![in alloc; 0u8; size]?;
    let tag = seal_all(text.as_mut_slice(), count);
    let digits = hex::encode(alloc, tag.as_slice())?;
    Ok(digits)
}

/// The HMAC of the last of `count` messages of `size` bytes, in hexadecimal.
pub fn last_code(alloc: Global, size: usize, count: u64) -> Result<String, BenchError>
    ensures { IfOk result (λ text. string_bytes text ≡ encode_lower (last_code size count)) }
{
    let mut text = vec![in alloc; 0u8; size]?;
    let code = authenticate_all(text.as_mut_slice(), count);
    let digits = hex::encode(alloc, code.as_slice())?;
    Ok(digits)
}
