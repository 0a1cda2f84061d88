ghost use Rattle.std.specs.Prelude.{◌≡◌, ◌<◌, ◌∷◌, [], IfNone, IfSome, drop, length};
ghost use Rattle.std.specs.List.{position_from};
ghost use Rattle.script_picture.specs.Lines.{is_feed};
ghost use Rattle.script_text.specs.Lines.{lines_of};

// All but the first byte.
fn behind_first(bytes: &[u8]) -> &[u8]
    ensures { result.now ≡ drop 1 bytes.now }
{
    if bytes.is_empty() { bytes } else { &bytes[1..] }
}

// Where the first line of a text is ended by a line feed.
fn feed_of(text: &[u8]) -> Option<usize>
    ensures place { result ≡ position_from is_feed 0 text.now }
    ensures inside { IfSome result (λ place. place < length text.now) }
{
    text.iter().position(|b| *b == b'\n')
}

/// The first line of a text, without its line feed, and what follows it. `None` where the text has no line.
pub(crate) fn next_line(text: &[u8]) -> Option<(&[u8], &[u8])>
    ensures line { IfSome result (λ found. lines_of text.now ≡ found.0.now ∷ lines_of found.1.now) }
    ensures shorter { IfSome result (λ found. length found.1.now < length text.now) }
    ensures none { IfNone result (text.now ≡ []) }
{
    if text.is_empty() {
        return None;
    }
    let end = feed_of(text).unwrap_or(text.len());
    let (line, rest) = text.split_at(end);
    Some((line, behind_first(rest)))
}
