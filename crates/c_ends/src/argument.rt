// What is tested of a caller's words before an end is configured.
ghost use Rattle.std.specs.Prelude.{◌≡◌};
ghost use Rattle.c_ends.specs.Setting.{flags_in, has_algorithms, has_bad_eid, has_bad_psk, is_eid, is_pick, is_psk, requester_argument, responder_argument};

use crate::{KnownRequester, Offer, RequesterConfig, ResponderConfig};
use spdm_grammar::FlagSet;

/// Why the words of a caller make no configuration, in the order of the checks.
#[derive(Clone, Copy, Debug, PartialEq, Eq)]
pub enum ArgumentFault {
    /// An endpoint ID is below 8, or is 255.
    Eid,
    /// A pre-shared key is empty, or has more than 64 bytes.
    Psk,
    /// The algorithms are none of 1, 2 and 3.
    Algorithms,
    /// The boot number is above 2^24 - 2.
    Boot,
}

const LAST_BOOT: u32 = 16_777_214;

fn is_eid(number: u8) -> bool
    ensures { result ≡ is_eid number }
{
    8 <= number && number < 255
}

fn is_psk(bytes: &[u8]) -> bool
    ensures { result ≡ is_psk bytes.now }
{
    0 < bytes.len() && bytes.len() <= 64
}

fn is_pick(number: u8) -> bool
    ensures { result ≡ is_pick number }
{
    1 <= number && number <= 3
}

fn has_bad_eid(known: &[KnownRequester<'_>]) -> bool
    ensures { result ≡ has_bad_eid known.now }
{
    known.iter().any(|known| !is_eid(known.eid))
}

fn has_bad_psk(known: &[KnownRequester<'_>]) -> bool
    ensures { result ≡ has_bad_psk known.now }
{
    known.iter().any(|known| !is_psk(known.psk))
}

impl Offer {
    fn has_algorithms(&self) -> bool
        ensures { result ≡ has_algorithms self.now }
    {
        is_pick(self.hash) && is_pick(self.aead)
    }

    /// The capabilities.
    pub(crate) fn flags(&self) -> FlagSet
        ensures { result ≡ flags_in self.now }
    {
        FlagSet {
            measure: self.measure != 0,
            heartbeat: self.heartbeat != 0,
            key_update: self.key_update != 0,
            chunk: self.chunk != 0,
        }
    }
}

impl ResponderConfig<'_> {
    /// The first fault of the words for a responder that knows these requesters.
    pub(crate) fn argument_fault(&self, known: &[KnownRequester<'_>]) -> Option<ArgumentFault>
        ensures { result ≡ responder_argument self.now known.now }
    {
        if !is_eid(self.eid) || has_bad_eid(known) {
            return Some(ArgumentFault::Eid);
        }
        if has_bad_psk(known) {
            return Some(ArgumentFault::Psk);
        }
        if !self.offer.has_algorithms() {
            return Some(ArgumentFault::Algorithms);
        }
        if self.boot > LAST_BOOT {
            return Some(ArgumentFault::Boot);
        }
        None
    }
}

impl RequesterConfig<'_> {
    /// The first fault of the words for a requester.
    pub(crate) fn argument_fault(&self) -> Option<ArgumentFault>
        ensures { result ≡ requester_argument self.now }
    {
        if !is_eid(self.eid) || !is_eid(self.responder) {
            return Some(ArgumentFault::Eid);
        }
        if !is_psk(self.psk) {
            return Some(ArgumentFault::Psk);
        }
        if !self.offer.has_algorithms() {
            return Some(ArgumentFault::Algorithms);
        }
        if self.boot > LAST_BOOT {
            return Some(ArgumentFault::Boot);
        }
        None
    }
}
