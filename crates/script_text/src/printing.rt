//! Configurations and scripts as texts.

pub mod config_printing;
pub mod script_printing;
