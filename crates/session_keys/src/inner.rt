ghost use Rattle.std.specs.Prelude.{◌≡◌, drop, slice_index, bytes_eq};

/// The type before application data in a record (DSP0277).
pub const APP_DATA: u8 = 1;

/// What follows the type of an inner message.
pub fn behind_type(inner: &[u8]) -> &[u8]
    ensures { result.now ≡ drop 1 inner.now }
{
    if inner.is_empty() {
        inner
    } else {
        inner.split_at(1).1
    }
}

/// The byte at a place, and 0 after the end.
pub fn byte_at(message: &[u8], at: usize) -> u8
    ensures { result ≡ slice_index message.now at }
{
    message.get(at).copied().unwrap_or(0)
}

/// Whether bytes are the same.
pub fn same_bytes(a: &[u8], b: &[u8]) -> bool
    ensures { result ≡ bytes_eq a.now b.now }
{
    a == b
}
