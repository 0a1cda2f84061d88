//! The block cipher AES (FIPS 197) for keys of 16 and 32 bytes, in the direction that Galois/Counter Mode
//! takes, once by tables of rounds (`Aes`) and once by slices of four blocks (`SlicedAes`). No call takes
//! memory. The cipher by tables reads memory at places that depend on keys and blocks; that by slices has no
//! place and no branch that depends on them.
//!
//! Read first: `cipher` in `specs/Cipher.antt`, a block encrypted by FIPS 197, step by step. The
//! calls are `Aes::encrypt` and `SlicedAes::encrypt_four`, equal to it.
#![tactic(auto)]

mod begun;
mod cipher;
mod circuit;
mod columns;
mod expansion;
mod mixing;
mod packing;
mod plain;
mod sbox;
mod schedule;
mod sliced;
mod sliced_keys;
mod sliced_rounds;
mod sliced_word;
mod slices;
mod state;
mod tables;
mod turning;

pub use begun::Begun;
pub use cipher::Aes;
pub use expansion::expand_key;
pub use plain::encrypt_step_by_step;
pub use sliced::SlicedAes;
