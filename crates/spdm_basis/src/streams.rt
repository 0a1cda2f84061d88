//! What the program reads from and writes to: sources, sinks and seeds, over memory and over the system, and such as
//! fail when they are told to.

pub mod file_seeds;
pub mod memory;
pub mod outside;
pub mod standard;
pub mod transfer;
