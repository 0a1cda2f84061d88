//! Captures as definitions: which packets the ends may send in an order, which packet is the first that they may not,
//! and why. No code runs here. The definitions are in `specs/`, and each function below has a law about them as its
//! contract.
//!
//! Read first: `Conforms` in `specs/Capture.antt`, which captures conform. The law to read first is
//! `conforming_has_table`.
#![tactic(auto)]

mod laws;

pub use laws::{
    beginning_conforms, conforming_has_table, first_has_reason, one_is_first, one_reason, one_table,
};
