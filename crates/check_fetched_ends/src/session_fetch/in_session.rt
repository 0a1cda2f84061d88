ghost use Rattle.std.specs.Prelude.{◌≡◌, ◌≤◌, ◌+◌, ◌-◌, ◌==◌, length, drop};
ghost use Rattle.check_late_laws.specs.Fetching.{bytes_in, size_in};
ghost use Rattle.spdm_grammar.specs.Fields.{zeros};
ghost use Rattle.check_fetched_ends.specs.InSession.{size_with};
ghost use Rattle.spdm_grammar.specs.declared.names.TheConstants.{MAX_MESSAGE_SIZE};

use check_late_laws::LargeAnswer;
use session_keys::byte_at;
use spdm_basis::Frame;
use spdm_grammar::names::MAX_MESSAGE_SIZE;

// The most bytes of an SPDM message.
pub(crate) const MOST_BYTES: usize = MAX_MESSAGE_SIZE as usize;

// As many zeros as a large response may have.
const ZEROS: [u8; MOST_BYTES] = [0; MOST_BYTES];

/// A large response that is fetched in the session of a RspSessionID: what came of it, which lengths it may have, the
/// operation that its request asks for, and whether a chunk of it is left to be given. Never allocates (read, not proved).
#[derive(Drop)]
pub struct InSession {
    pub(crate) answer: LargeAnswer,
    pub(crate) id: u16,
    pub(crate) least: usize,
    pub(crate) most: usize,
    pub(crate) op: u8,
    pub(crate) left: bool,
}

// So many zeros.
pub(crate) fn zeros(count: usize) -> &'static [u8]
    requires { count ≤ MAX_MESSAGE_SIZE }
    ensures { result.now ≡ zeros count }
{
    &ZEROS[..count]
}

// The length of all that a first chunk tells, of at most 65,535 bytes.
fn size_in(message: &[u8]) -> usize
    ensures { result ≡ size_in message.now }
{
    byte_at(message, 12) as usize + byte_at(message, 13) as usize * 256
}

// The bytes of a message from a place on; none where it is shorter.
fn bytes_from(message: &[u8], at: usize) -> &[u8]
    ensures { result.now ≡ drop at message.now }
{
    match message.get(at..) {
        Some(bytes) => bytes,
        None => &[],
    }
}

// The bytes of a large response in the CHUNK_RESPONSE of this number.
pub(crate) fn bytes_in(number: u16, message: &[u8]) -> &[u8]
    ensures { result.now ≡ bytes_in number message.now }
{
    if number == 0 {
        return bytes_from(message, 16);
    }
    bytes_from(message, 12)
}

// The announced length with the CHUNK_RESPONSE of this number.
pub(crate) fn size_with(number: u16, told: Option<usize>, message: &[u8]) -> usize
    ensures { result ≡ size_with number told message.now }
{
    if number == 0 {
        return size_in(message);
    }
    told.unwrap_or(0)
}

impl InSession {
    ghost use Rattle.std.specs.Prelude.{◌≡◌, MatchOption};
    ghost use Rattle.check_fetched_ends.specs.InSession.{AreFitting, filled};

    /// The bytes so far, those of the CHUNK_RESPONSE that comes next, and zeros up to the announced length; `None`
    /// where that is no length that is sent in chunks, and where they are longer.
    pub fn filled(&self, message: &[u8]) -> Option<Frame>
        ensures { MatchOption result (AreFitting self.now message.now → ⊥)
            (λ whole. AreFitting self.now message.now × (whole ≡ filled self.now.answer.number
            self.now.answer.size self.now.answer.bytes message.now)) }
    {
        let number = self.answer.number();
        let size = size_with(number, self.answer.size(), message);
        if size < self.least || size > self.most || size > MOST_BYTES {
            return None;
        }
        let chunk = bytes_in(number, message);
        let bytes = self.answer.bytes();
        if bytes.len() > size || chunk.len() > size - bytes.len() {
            return None;
        }
        let mut whole = Frame::new();
        let _ = whole.extend(bytes);
        let _ = whole.extend(chunk);
        let _ = whole.extend(zeros(size - whole.as_slice().len()));
        Some(whole)
    }
}
