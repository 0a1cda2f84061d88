ghost use Rattle.std.specs.Prelude.{◌≡◌, ◌<◌, ◌∷◌, [], drop, length, IfSome, IfNone};
ghost use Rattle.script_text.specs.Lines.{lines_of, is_too_long, is_passed_over};

use crate::reading::places::place_of;

/// The longest line of a text.
pub const LINE_LIMIT: usize = 16_384;

/// The first line of a text, without its line feed, and what follows it. `None` where the text has no line.
pub fn next_line(text: &[u8]) -> Option<(&[u8], &[u8])>
    ensures line { IfSome result (λ found. lines_of text.now ≡ found.0.now ∷ lines_of found.1.now) }
    ensures shorter { IfSome result (λ found. length found.1.now < length text.now) }
    ensures none { IfNone result (text.now ≡ []) }
{
    if text.is_empty() {
        return None;
    }
    let end = place_of(b'\n', text).unwrap_or(text.len());
    let (line, rest) = text.split_at(end);
    Some((line, behind_first(rest)))
}

/// All but the first byte.
pub fn behind_first(bytes: &[u8]) -> &[u8]
    ensures { result.now ≡ drop 1 bytes.now }
{
    if bytes.is_empty() { bytes } else { &bytes[1..] }
}

/// Whether a line is longer than a line may be.
pub fn is_too_long(line: &[u8]) -> bool
    ensures { result ≡ is_too_long line.now }
{
    line.len() > LINE_LIMIT
}

/// Whether a line is empty or a comment.
pub fn is_passed_over(line: &[u8]) -> bool
    ensures { result ≡ is_passed_over line.now }
{
    line.is_empty() || line[0] == b'#'
}
