//! Texts, with the answers of another implementation, for `script_text` and
//! `spdm_show`. There is nothing here but tests: the readers are proved once, and not again beside
//! their tests.
//!
//! Read first: `texts_have_the_answers_of_the_table` in `src/script_tests.rt`.
#![tactic(auto)]

#[cfg(test)]
mod script_tests;
#[cfg(test)]
mod scripts;
#[cfg(test)]
mod show_tests;
#[cfg(test)]
mod texts;
