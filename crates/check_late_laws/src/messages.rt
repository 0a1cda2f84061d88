ghost use Rattle.std.specs.Prelude.{◌≡◌, drop, slice_index, Some, if◌then◌else◌};
ghost use Rattle.check_late_laws.specs.Fetching.{size_in};

// A byte of a message, and 0 after its end.
fn byte_at(message: &[u8], at: usize) -> u8
    ensures { result ≡ slice_index message.now at }
{
    match message.get(at) {
        Some(&byte) => byte,
        None => 0,
    }
}

// The length announced by a first chunk, of at most 65,535 bytes.
fn told_size(message: &[u8]) -> usize
    ensures { result ≡ size_in message.now }
{
    byte_at(message, 12) as usize + byte_at(message, 13) as usize * 256
}

// The bytes of a message from a place on; none where it is shorter.
fn bytes_from(message: &[u8], at: usize) -> &[u8]
    ensures { result.now ≡ drop at message.now }
{
    match message.get(at..) {
        Some(bytes) => bytes,
        None => &[],
    }
}

// The bytes of a large response in CHUNK_RESPONSE: in the first one its length stands before them.
pub(crate) fn chunk_in(first: bool, message: &[u8]) -> &[u8]
    ensures { result.now ≡ drop (if first then 16 else 12) message.now }
{
    if first {
        return bytes_from(message, 16);
    }
    bytes_from(message, 12)
}

// The announced length after CHUNK_RESPONSE: the first one tells it.
pub(crate) fn size_with(first: bool, message: &[u8], size: Option<usize>) -> Option<usize>
    ensures { result ≡ if first then Some (size_in message.now) else size }
{
    if first {
        return Some(told_size(message));
    }
    size
}
