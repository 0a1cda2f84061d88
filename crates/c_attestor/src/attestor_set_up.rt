ghost use Rattle.std.specs.Prelude.{◌≡◌, IfErr, IfOk, OnOk, Some};
ghost use Rattle.c_attestor.specs.Holding.{HoldsOpened};
ghost use Rattle.c_attestor.specs.Opening.{IsAttestorFault, SetsUp, code_of_attestor};

use crate::open_attestor::OpenAttestor;
use crate::policy_text::{PolicyUnread, policy_of};
use c_ends::requester_set_up::{RequesterFault, fault_code, sound_config};
use c_ends::{RequesterConfig, codes};
use std::alloc::Global;

/// Why a caller's words and the text of a policy set up no attestor, in the order of the checks.
#[derive(Clone, Copy, Debug, PartialEq, Eq)]
pub enum AttestorFault {
    /// The words set up no requester.
    Requester(RequesterFault),
    /// The text has a bad line, or more than 4 MiB.
    Policy,
    /// There is not enough memory for the policy or for the attestor.
    Memory,
}

/// What a call answers where no attestor is set up.
pub(crate) fn attestor_code(fault: AttestorFault) -> u32
    ensures { result ≡ code_of_attestor fault }
{
    match fault {
        AttestorFault::Requester(fault) => fault_code(fault),
        AttestorFault::Policy => codes::BAD_POLICY,
        AttestorFault::Memory => codes::MEMORY,
    }
}

/// The attestor of a caller's words and of the text of a policy, which was told and given nothing yet.
pub(crate) fn open_attestor(
    alloc: Global,
    config: &RequesterConfig<'_>,
    text: &[u8],
) -> Result<Box<OpenAttestor, Global>, AttestorFault>
    ensures opened { IfOk result (λ made. HoldsOpened (Some made.value) config.now text.now) }
    ensures words { OnOk result (SetsUp config.now) }
    ensures fault { IfErr result (λ fault. IsAttestorFault config.now text.now fault) }
{
    let own = match sound_config(config) {
        Ok(own) => own,
        Err(fault) => return Err(AttestorFault::Requester(fault)),
    };
    let policy = match policy_of(alloc, text) {
        Ok(policy) => policy,
        Err(PolicyUnread::Bad) => return Err(AttestorFault::Policy),
        Err(PolicyUnread::Memory) => return Err(AttestorFault::Memory),
    };
    match OpenAttestor::new(alloc, &own, *config.seed, config.boot, policy) {
        Ok(made) => Ok(made),
        Err(_) => Err(AttestorFault::Memory),
    }
}
