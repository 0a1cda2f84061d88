//! Tests alone: the cipher and the hash without tables beside published vectors, and beside those with tables.
//!
//! Read first: `four_blocks_of_fips_197` in `src/aes_tests.rt`, the examples of the standard at two of four places.
#![tactic(auto)]

#[cfg(test)]
mod aes_tests;
#[cfg(test)]
mod ghash_tests;
