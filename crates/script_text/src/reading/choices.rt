ghost use Rattle.std.specs.Prelude.{◌≡◌, ◌≤◌, ◌∷◌, [], IfSome, is_some, codes, List, ℕ};
ghost use Rattle.script_text.specs.HexWords.{is_none_word};
ghost use Rattle.script_text.specs.Choices.{is_flags, flags_of, is_some_of, has_letter, pick_in, hash_in, aead_in, requester_in, end_in};

use crate::reading::lines::behind_first;
use spdm_grammar::{FlagSet, Pick};

/// The capabilities that a word says.
#[tactic(auto, unfolding(crate::specs::Choices::is_flags, crate::specs::Choices::flags_of))]
pub fn flags(word: &[u8]) -> Option<FlagSet>
    ensures valid { is_some result ≡ is_flags word.now }
    ensures value { IfSome result (λ flags. flags ≡ flags_of word.now) }
{
    let is_none = word == b"-".as_slice();
    if !is_none && (word.is_empty() || !has_flag_letters(word)) {
        return None;
    }
    Some(FlagSet {
        measure: word.contains(&b'm'),
        heartbeat: word.contains(&b'h'),
        key_update: word.contains(&b'k'),
        chunk: word.contains(&b'c'),
    })
}

// Whether a word is some of the letters of the capabilities in their order.
fn has_flag_letters(word: &[u8]) -> bool
    ensures { result ≡ is_some_of (codes "mhkc") word.now }
{
    let rest = behind(b'm', word);
    let rest = behind(b'h', rest);
    let rest = behind(b'k', rest);
    behind(b'c', rest).is_empty()
}

// The word without this letter in front.
fn behind(letter: u8, word: &[u8]) -> &[u8]
    ensures { (letters : List ℕ)
        → is_some_of letters result.now ≡ is_some_of (letter ∷ letters) word.now }
{
    if !word.is_empty() && word[0] == letter {
        behind_first(word)
    } else {
        word
    }
}

// The choice that a word says, of two algorithms with these names.
fn pick(small: &[u8], large: &[u8], word: &[u8]) -> Option<Pick>
    ensures { result ≡ pick_in small.now large.now word.now }
{
    if word == small {
        return Some(Pick::Small);
    }
    if word == large {
        return Some(Pick::Large);
    }
    if word == b"both".as_slice() {
        return Some(Pick::Both);
    }
    None
}

/// The hashes that a word says.
#[tactic(auto, unfolding(crate::specs::Choices::hash_in))]
pub fn hash(word: &[u8]) -> Option<Pick>
    ensures { result ≡ hash_in word.now }
{
    pick(b"256", b"384", word)
}

/// The AEADs that a word says.
#[tactic(auto, unfolding(crate::specs::Choices::aead_in))]
pub fn aead(word: &[u8]) -> Option<Pick>
    ensures { result ≡ aead_in word.now }
{
    pick(b"128", b"256", word)
}

/// The requester that a word names, counted from 1.
#[tactic(auto, unfolding(crate::specs::Choices::requester_in))]
pub fn requester(word: &[u8]) -> Option<u8>
    ensures value { result ≡ requester_in word.now }
    ensures low { IfSome result (λ q. 1 ≤ q) }
    ensures high { IfSome result (λ q. q ≤ 8) }
{
    if word.len() == 2 && word[0] == b'q' && word[1] >= b'1' && word[1] <= b'8' {
        return Some(word[1] - b'0');
    }
    None
}

/// The end that a word names: the responder is 0, and the requesters are counted from 1.
#[tactic(auto, unfolding(crate::specs::Choices::end_in))]
pub fn end_number(word: &[u8]) -> Option<u8>
    ensures value { result ≡ end_in word.now }
    ensures high { IfSome result (λ end. end ≤ 8) }
{
    if word == b"r".as_slice() {
        return Some(0);
    }
    requester(word)
}
