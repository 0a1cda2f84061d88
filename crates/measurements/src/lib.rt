//! The measurements of a responder: its blocks by rising index, the record that answers GET_MEASUREMENTS, and the
//! summary hash (DSP0274, "MEASUREMENTS response message format").
//!
//! Read first: `asked` in `specs/Records.antt`, the record that answers an operation. The call is `Inventory::record`.
#![tactic(auto)]

mod block;
mod fault;
mod inventory;
mod search;
mod summary;

pub use fault::{InventoryFault, MeasureFault};
pub use inventory::Inventory;
pub use spdm_grammar::BlockSpec;
