ghost use Rattle.std.specs.Prelude.{◌≡◌, ◌<◌, ◌≤◌, ◌^◌, ◌-◌, min, length, Option, IfSome, is_some};
ghost use Rattle.script_text.specs.Numbers.{is_digit, is_number, has_leading_zero, is_number_in, value_of};
ghost use Rattle.std.specs.List.{list_all};

/// The number that a word is, in decimal digits without sign and leading zeros, where it is one of 64 bits.
pub fn long_number(word: &[u8]) -> Option<u64>
    ensures valid { is_some result ≡ is_number_in 0 (2 ^ 64 - 1) word.now }
    ensures value { IfSome result (λ n. n ≡ value_of word.now) }
{
    if !is_number(word) {
        return None;
    }
    let value = value(word);
    if value > u128::from(u64::MAX) {
        return None;
    }
    Some(value as u64)
}

/// The number that a word is, in decimal digits without sign and leading zeros, where it is one from `low` to `high`.
pub fn number(low: u32, high: u32, word: &[u8]) -> Option<u32>
    ensures valid { is_some result ≡ is_number_in low high word.now }
    ensures value { IfSome result (λ n. n ≡ value_of word.now) }
    ensures low { IfSome result (λ n. low ≤ n) }
    ensures high { IfSome result (λ n. n ≤ high) }
{
    if !is_number(word) {
        return None;
    }
    let value = value(word);
    if value < u128::from(low) || value > u128::from(high) {
        return None;
    }
    Some(value as u32)
}

#[tactic(auto, unfolding(crate::specs::Numbers::is_number))]
fn is_number(word: &[u8]) -> bool
    ensures { result ≡ is_number word.now }
{
    !word.is_empty() && has_only_digits(word) && !has_leading_zero(word)
}

fn has_only_digits(word: &[u8]) -> bool
    ensures { result ≡ list_all is_digit word.now }
{
    word.iter().all(|b| *b >= b'0' && *b <= b'9')
}

fn has_leading_zero(word: &[u8]) -> bool
    ensures { result ≡ has_leading_zero word.now }
{
    word.len() > 1 && word[0] == b'0'
}

// The value of digits; one past 128 bits saturates at `u128::MAX`.
#[tactic(auto, unfolding(crate::specs::Numbers::value_of))]
fn value(word: &[u8]) -> u128
    ensures { result ≡ min (value_of word.now) (2 ^ 128 - 1) }
{
    let mut value: u128 = 0;
    for b in word {
        let digit = u128::from(b.saturating_sub(b'0'));
        value = value.saturating_mul(10).saturating_add(digit);
    }
    value
}
