ghost use Rattle.std.specs.Prelude.{◌≡◌, ◌≤◌, [], None, true, IfErr, IfOk, OnOk};
ghost use Rattle.c_ends.specs.Opening.{HasRequesterFault, IsRequesterFault, code_of_requester};
ghost use Rattle.c_ends.specs.Setting.{is_eid, is_psk, last_boot, requester_argument, requester_in, set_up_in};
ghost use Rattle.requester.specs.Config.{config_fault};
ghost use Rattle.requester.specs.SetUp.{setup_of};
ghost use Rattle.requester.specs.Standing.{StandsFor};
ghost use Rattle.requester_machine.specs.Requesting.{new_requesting};

use crate::argument::ArgumentFault;
use crate::open_requester::OpenRequester;
use crate::responder_set_up::{eid_of, psk_of};
use crate::{RequesterConfig, codes};
use requester::{ReqConfig, ReqConfigFault};
use std::alloc::Global;

/// Why a caller's words set up no requester.
#[derive(Clone, Copy, Debug, PartialEq, Eq)]
pub enum RequesterFault {
    /// The words make no configuration.
    Argument(ArgumentFault),
    /// The configuration has this fault.
    Config(ReqConfigFault),
}

/// What a call answers where no requester is set up.
pub fn fault_code(fault: RequesterFault) -> u32
    ensures { result ≡ code_of_requester fault }
{
    match fault {
        RequesterFault::Argument(fault) => codes::of_argument(fault),
        RequesterFault::Config(fault) => codes::of_requester(fault),
    }
}

// The configuration of words that were tested.
fn config_of<'a>(config: &'a RequesterConfig<'a>) -> ReqConfig<'a>
    requires eid { is_eid config.now.eid ≡ true }
    requires responder { is_eid config.now.responder ≡ true }
    requires psk { is_psk config.now.psk.now ≡ true }
    ensures { setup_of result ≡ set_up_in config.now }
{
    ReqConfig {
        eid: eid_of(config.eid),
        responder: eid_of(config.responder),
        transfer: config.transfer,
        max: config.max,
        unit: config.unit,
        pad: config.pad,
        flags: config.offer.flags(),
        hint: config.hint,
        psk: psk_of(config.psk),
        opaque: config.opaque,
        suites: config.offer.suites(),
    }
}

/// The configuration that a caller's words say, or the first fault of the words, or the first of the configuration.
pub fn sound_config<'a>(config: &'a RequesterConfig<'a>) -> Result<ReqConfig<'a>, RequesterFault>
    ensures set { IfOk result (λ own. setup_of own ≡ set_up_in config.now) }
    ensures sound { IfOk result (λ own. config_fault own ≡ None) }
    ensures words { OnOk result (requester_argument config.now ≡ None) }
    ensures boot { OnOk result (config.now.boot ≤ last_boot) }
    ensures fault { IfErr result (λ fault. IsRequesterFault config.now fault) }
{
    if let Some(fault) = config.argument_fault() {
        return Err(RequesterFault::Argument(fault));
    }
    let own = config_of(config);
    match own.fault() {
        Some(fault) => Err(RequesterFault::Config(fault)),
        None => Ok(own),
    }
}

/// The requester of a caller's words, which was told and given nothing yet.
pub(crate) fn open_requester(
    alloc: Global,
    config: &RequesterConfig<'_>,
) -> Result<Box<OpenRequester, Global>, RequesterFault>
    ensures stands { IfOk result (λ end. StandsFor end.value.requester
        (new_requesting (requester_in config.now))) }
    ensures sends { IfOk result (λ end. end.value.out ≡ []) }
    ensures sound { OnOk result (requester_argument config.now ≡ None) }
    ensures config { OnOk result (HasRequesterFault config.now None) }
    ensures fault { IfErr result (λ fault. IsRequesterFault config.now fault) }
{
    let own = match sound_config(config) {
        Ok(own) => own,
        Err(fault) => return Err(fault),
    };
    match OpenRequester::new(alloc, &own, *config.seed, config.boot) {
        Ok(end) => Ok(end),
        Err(_) => Err(RequesterFault::Config(ReqConfigFault::OutOfMemory)),
    }
}
