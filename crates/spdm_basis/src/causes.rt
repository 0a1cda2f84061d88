//! The faults that several layers name.

pub mod drop_cause;
pub mod faults;
pub mod record_fault;
