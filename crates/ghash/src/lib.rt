//! GHASH, the hash of Galois/Counter Mode (SP 800-38D, section 6.4), under a key with a table, six
//! coefficients at a time (`HashKey`), and under a key without one, by products of integers with holes
//! between their bits (`TablelessHashKey`). Both have the same calls. No call takes memory.
//!
//! Read first: `ghash` in `specs/Hash.antt`, the sum of blocks times powers of the key. The call is `absorb`
//! of either key.
#![tactic(auto)]

mod block;
mod carry_less;
mod field;
mod hash_key;
mod table;
mod tableless;
mod wide;

pub use block::{block_bytes, block_number};
pub use field::multiply;
pub use hash_key::HashKey;
pub use tableless::TablelessHashKey;
