ghost use Rattle.std.specs.Prelude.{◌≡◌, ◌≤◌, ◌<◌, ◌+◌, ◌++◌, ◌^◌, length};
ghost use Rattle.std.specs.Fmt.{decimal};
ghost use Rattle.trace_text.specs.Spelling.{with_word};
ghost use Rattle.requester_attest.specs.Words.{appraisal_text, untrusted_text};

use appraise::Appraisal;
use spdm_basis::Line;

// How many bytes a line has room for.
const LINE_ROOM: usize = 8_400;

// How many digits a number of 64 bits has at most.
const MOST_DIGITS: usize = 20;

// Puts bytes at the end of a line that has room for them.
fn push(bytes: &[u8], out: &mut Line)
    requires { length out.old + length bytes.now ≤ LINE_ROOM }
    ensures text { out.new ≡ out.old ++ bytes.now }
    ensures length { length out.new ≡ length out.old + length bytes.now }
{
    out.extend(bytes).unwrap();
}

// Puts the decimal digits of a number at the end of a line.
#[tactic(auto, using(std::proofs::lemmas::Fmt::decimal_step, std::proofs::lemmas::Fmt::decimal_digit, trace_text::proofs::Decimals::decimal_longer, trace_text::proofs::Decimals::decimal_one))]
fn push_digits(number: u64, out: &mut Line)
    requires { length out.old + length (decimal number) ≤ LINE_ROOM }
    ensures text { out.new ≡ out.old ++ decimal number }
    ensures length { length out.new ≡ length out.old + length (decimal number) }
{
    if number < 10 {
        push(&[b'0' + number as u8], out);
        return;
    }
    push_digits(number / 10, out);
    push(&[b'0' + (number % 10) as u8], out);
}

// Puts a word after those of a line.
fn push_word(word: &[u8], out: &mut Line)
    requires { length out.old + 1 + length word.now ≤ LINE_ROOM }
    ensures text { out.new ≡ with_word out.old word.now }
    ensures length { length out.new ≡ length out.old + 1 + length word.now }
{
    push(b" ", out);
    push(word, out);
}

// Puts a number after the words of a line.
#[tactic(auto, using(trace_text::proofs::Decimals::decimal_short))]
fn push_number(number: u64, out: &mut Line)
    requires { length out.old + 1 + MOST_DIGITS ≤ LINE_ROOM }
    ensures text { out.new ≡ with_word out.old (decimal number) }
    ensures length { length out.new ≤ length out.old + 1 + MOST_DIGITS }
{
    push(b" ", out);
    push_digits(number, out);
}

// The line of a record that is not trusted, with this word and number.
fn untrusted(word: &[u8], number: u64) -> Line
    requires { length word.now ≤ 100 }
    ensures text { result ≡ untrusted_text word.now number }
    ensures short { length result < 2 ^ 16 }
{
    let mut line = Line::new();
    push(b"untrusted", &mut line);
    push_word(word, &mut line);
    push_number(number, &mut line);
    line
}

// The line of a record that is trusted.
fn trusted() -> Line
    ensures text { result ≡ appraisal_text (Appraisal.Trusted) }
    ensures short { length result < 2 ^ 16 }
{
    let mut line = Line::new();
    push(b"trusted", &mut line);
    line
}

/// The line that tells what a record comes to, without a line feed.
pub(crate) fn appraisal_line(appraisal: Appraisal) -> Line
    ensures text { result ≡ appraisal_text appraisal }
    ensures short { length result < 2 ^ 16 }
{
    match appraisal {
        Appraisal::Malformed { at } => untrusted(b"malformed", at as u64),
        Appraisal::Repeated { index } => untrusted(b"repeated", u64::from(index)),
        Appraisal::Unknown { index } => untrusted(b"unknown", u64::from(index)),
        Appraisal::Differs { index } => untrusted(b"differs", u64::from(index)),
        Appraisal::Missing { index } => untrusted(b"missing", u64::from(index)),
        Appraisal::Trusted => trusted(),
    }
}
