ghost use Rattle.std.specs.Prelude.{◌≡◌, ◌≤◌, ◌==◌, length};
ghost use Rattle.std.specs.List.{before_first, after_first, position_or_len};
ghost use Rattle.script_text.specs.Lines.{word, count_of_words, has_words};

use crate::reading::lines::behind_first;
use crate::reading::places::place_of;

/// How many words a line has.
pub fn count_of_words(line: &[u8]) -> usize
    ensures { result ≡ count_of_words line.now }
{
    let mut count = 1;
    let mut rest = line;
    'words: while let Some(end) = place_of(b' ', rest) {
        let (_, behind) = rest.split_at(end + 1);
        count += 1;
        rest = behind;
    }
    count
}

/// Whether a line has as many words.
pub fn has_words(count: usize, line: &[u8]) -> bool
    ensures { result ≡ has_words count line.now }
{
    count_of_words(line) == count
}

/// The word of a line at a place, counted from 0; the empty word where there are not so many.
pub fn word(place: usize, line: &[u8]) -> &[u8]
    ensures { result.now ≡ word place line.now }
{
    let mut rest = line;
    for _ in 0..place {
        rest = behind_space(rest);
    }
    before_space(rest)
}

// The place of the first space, or the length where there is none.
fn first_space(line: &[u8]) -> usize
    ensures place { result ≡ position_or_len (λ b. b == 32) line.now }
    ensures within { result ≤ length line.now }
{
    place_of(b' ', line).unwrap_or(line.len())
}

// What stands before the first space.
fn before_space(line: &[u8]) -> &[u8]
    ensures { result.now ≡ before_first (λ b. b == 32) line.now }
{
    &line[..first_space(line)]
}

// What follows the first space.
fn behind_space(line: &[u8]) -> &[u8]
    ensures { result.now ≡ after_first (λ b. b == 32) line.now }
{
    let (_, rest) = line.split_at(first_space(line));
    behind_first(rest)
}
