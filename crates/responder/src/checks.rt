ghost use Rattle.std.specs.Prelude.{◌≡◌, None, IfOk, IfErr, OnOk};
ghost use Rattle.measurements.specs.Blocks.{by_index};
ghost use Rattle.responder.specs.Config.{IsCause, config_fault, has_long_hint, has_same_eid, has_same_psk, is_eid_of_one, is_out_of_range, is_psk_of_one, set_up_fault};

use crate::{Known, RspConfig, RspConfigFault};
use measurements::{Inventory, InventoryFault};
use negotiate::Sizes;
use spdm_basis::Eid;
use spdm_grammar::names::MAX_OPAQUE_LEN;
use std::alloc::Global;

// Whether a requester has this endpoint ID.
fn is_eid_of_one(eid: Eid, known: &[Known]) -> bool
    ensures { result ≡ is_eid_of_one eid.number known.now }
{
    known.iter().any(|known| known.eid.number() == eid.number())
}

// Whether this endpoint ID and those of the requesters are not distinct.
fn has_same_eid(eid: Eid, known: &[Known]) -> bool
    ensures { result ≡ has_same_eid eid.number known.now }
{
    let mut own = eid;
    let mut rest = known;
    while let [first, others @ ..] = rest {
        if is_eid_of_one(own, rest) {
            return true;
        }
        own = first.eid;
        rest = others;
    }
    false
}

// Whether a requester has this pre-shared key.
fn is_psk_of_one(psk: &[u8], known: &[Known]) -> bool
    ensures { result ≡ is_psk_of_one psk.now known.now }
{
    known.iter().any(|known| known.psk.as_slice() == psk)
}

// Whether two of the requesters have one pre-shared key.
fn has_same_psk(known: &[Known]) -> bool
    ensures { result ≡ has_same_psk known.now }
{
    let mut rest = known;
    while let [first, others @ ..] = rest {
        if is_psk_of_one(first.psk.as_slice(), others) {
            return true;
        }
        rest = others;
    }
    false
}

// Whether a hint has more than 64 bytes.
fn has_long_hint(known: &[Known]) -> bool
    ensures { result ≡ has_long_hint known.now }
{
    known.iter().any(|known| known.hint.as_slice().len() > 64)
}

impl RspConfig<'_> {
    // Whether a size, the unit, the opaque data or a hint is out of its range.
    fn is_out_of_range(&self) -> bool
        ensures { result ≡ is_out_of_range self.now }
    {
        let sizes = Sizes {
            transfer: self.transfer,
            max: self.max,
        };
        !sizes.may_be_own(self.flags.chunk)
            || (self.unit < 64 || self.unit > 1024)
            || self.opaque.len() > MAX_OPAQUE_LEN
            || has_long_hint(self.known)
    }

    // The first fault of the configuration, apart from its measurements.
    fn set_up_fault(&self) -> Option<RspConfigFault>
        ensures { result ≡ set_up_fault self.now }
    {
        if self.known.len() > 8 {
            return Some(RspConfigFault::TooManyRequesters);
        }
        if has_same_eid(self.eid, self.known) {
            return Some(RspConfigFault::SameEid);
        }
        if has_same_psk(self.known) {
            return Some(RspConfigFault::SamePsk);
        }
        if self.is_out_of_range() {
            return Some(RspConfigFault::SizeRange);
        }
        None
    }

    /// The measurements of a responder with this configuration, or its first fault, in the order of `RspConfigFault`.
    pub fn inventory(&self, alloc: Global) -> Result<Inventory, RspConfigFault>
        ensures value { IfOk result (λ inventory. inventory ≡ by_index self.now.blocks.now) }
        ensures sound { OnOk result (config_fault self.now ≡ None) }
        ensures fault { IfErr result (λ fault. IsCause self.now fault) }
    {
        if let Some(fault) = self.set_up_fault() {
            return Err(fault);
        }
        match Inventory::new(alloc, self.blocks) {
            Ok(inventory) => Ok(inventory),
            Err(InventoryFault::OutOfMemory) => Err(RspConfigFault::OutOfMemory),
            Err(fault) => Err(RspConfigFault::Inventory(fault)),
        }
    }
}
