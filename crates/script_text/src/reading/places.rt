//! Where a byte stands first. Whole pieces without it are passed over, each without a stop in it, so that many bytes
//! are compared at once.
ghost use Rattle.std.specs.Prelude.{◌≡◌, ◌≤◌, ◌+◌, ◌==◌, length};
ghost use Rattle.std.specs.List.{list_any, position, position_or_len};

// How many bytes are passed over at once.
const PIECE: usize = 64;

// Whether a byte stands in a piece.
fn has(sought: u8, piece: &[u8]) -> bool
    ensures { result ≡ list_any (λ b. b == sought) piece.now }
{
    let mut found = false;
    for b in piece {
        found |= *b == sought;
    }
    found
}

// What is left after whole pieces that do not have the byte.
fn behind_pieces(sought: u8, bytes: &[u8]) -> &[u8]
    ensures place { position_or_len (λ b. b == sought) bytes.now + length result.now
        ≡ length bytes.now + position_or_len (λ b. b == sought) result.now }
    ensures within { length result.now ≤ length bytes.now }
{
    let mut rest = bytes;
    'pieces: while rest.len() >= PIECE {
        let (piece, behind) = rest.split_at(PIECE);
        if has(sought, piece) {
            break;
        }
        rest = behind;
    }
    rest
}

// The place of the first such byte, one byte at a time.
fn first(sought: u8, bytes: &[u8]) -> Option<usize>
    ensures { result ≡ position (λ b. b == sought) bytes.now }
{
    bytes.iter().position(|b| *b == sought)
}

/// The place of the first such byte.
pub fn place_of(sought: u8, bytes: &[u8]) -> Option<usize>
    ensures { result ≡ position (λ b. b == sought) bytes.now }
{
    let rest = behind_pieces(sought, bytes);
    match first(sought, rest) {
        Some(place) => Some(bytes.len() - rest.len() + place),
        None => None,
    }
}
