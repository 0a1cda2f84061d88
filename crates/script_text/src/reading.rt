//! Lines, words, numbers and hexadecimal digits.

pub mod choices;
pub mod hex_words;
pub mod lines;
pub mod numbers;
pub mod places;
pub mod words;
