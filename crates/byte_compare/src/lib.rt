//! Comparison of bytes that looks at all of them, so that its time does not tell where they differ.
//!
//! Read first: `same_bytes` in `src/lib.rt`, the one call.
#![tactic(auto)]

ghost use Rattle.std.specs.Prelude.{◌≡◌, bytes_eq};

/// Whether bytes are the same. Where there are as many, all are compared, and no branch depends on one of them.
pub fn same_bytes(a: &[u8], b: &[u8]) -> bool
    ensures { result ≡ bytes_eq a.now b.now }
{
    if a.len() != b.len() {
        return false;
    }
    let mut differing = 0u8;
    for i in 0..a.len() {
        differing |= a[i] ^ b[i];
    }
    differing == 0
}
