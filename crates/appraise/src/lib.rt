//! Whether the record of a responder's measurements is what rules expect of it.
//!
//! Read first: `IsTrusted` in `specs/Trusted.antt`, when a record is trusted. The call is `appraise`.
#![tactic(auto)]

mod appraisal;
mod appraising;
mod block;
mod laws;
mod policy;
mod policy_fault;
mod rules;
mod seen;

pub use appraisal::Appraisal;
pub use appraising::appraise;
pub use laws::{one_answer_holds, read_rules_are_sound};
pub use policy::Policy;
pub use policy_fault::PolicyFault;
pub use script_text::Rule;
