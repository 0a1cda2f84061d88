ghost use Rattle.std.specs.Prelude.{◌≡◌, IfErr, IfOk, Ok};
ghost use Rattle.c_attestor.specs.Opening.{IsUnread};
ghost use Rattle.script_text.specs.PolicyText.{policy_in};

use appraise::Policy;
use script_text::{ScriptFault, TEXT_LIMIT, parse_policy};
use std::alloc::Global;

/// Why a text is not taken for a policy.
#[derive(Clone, Copy, Debug, PartialEq, Eq)]
pub enum PolicyUnread {
    /// It has a bad line, or more than 4 MiB.
    Bad,
    /// There is not enough memory.
    Memory,
}

/// The policy that a text is.
pub(crate) fn policy_of(alloc: Global, text: &[u8]) -> Result<Policy, PolicyUnread>
    ensures says { IfOk result (λ policy. policy_in 1 text.now ≡ Ok policy) }
    ensures unread { IfErr result (λ why. IsUnread text.now why) }
{
    if text.len() > TEXT_LIMIT {
        return Err(PolicyUnread::Bad);
    }
    match parse_policy(alloc, text, 1) {
        // Rules that were read make a policy (`read_rules_are_sound`), so nothing but memory can be wanting.
        Ok(rules) => match Policy::new(alloc, rules.as_slice()) {
            Ok(policy) => Ok(policy),
            Err(_) => Err(PolicyUnread::Memory),
        },
        Err(ScriptFault::OutOfMemory) => Err(PolicyUnread::Memory),
        Err(ScriptFault::Line(_, _) | ScriptFault::TooManyEvents(_)) => Err(PolicyUnread::Bad),
    }
}
