use crate::Slot;
use spdm_basis::OutOfMemory;
use std::alloc::Global;
use std::marker::Model;

/// The place of a session: its slot, which stays on the heap, where it has 16 KB. Allocates only when constructed (read,
/// not proved). In contracts, the slot.
#[derive(Drop)]
pub struct SlotPlace {
    inner: Box<Slot>,
}

impl Model for SlotPlace {
    ghost use Rattle.requester_core.specs.declared.in_sessions.slot.Slot.{Slot};

    ghost Value = { Slot };

    ghost view = { λ p. p.inner.value };
}

impl SlotPlace {
    ghost use Rattle.std.specs.Prelude.{◌≡◌, IfOk};
    ghost use Rattle.std.specs.Borrow.{sem};
    ghost use Rattle.requester_core.specs.Lending.{LendsSlot};
    ghost use Rattle.requester_core.specs.declared.in_sessions.slot.Slot.TheVariants as slot;

    /// A place whose slot is empty.
    pub(crate) fn empty(alloc: Global) -> Result<SlotPlace, OutOfMemory>
        ensures { IfOk result (λ place. place ≡ slot.Empty) }
    {
        match Box::new(alloc, Slot::Empty) {
            Ok(inner) => Ok(SlotPlace { inner }),
            Err(_) => Err(OutOfMemory),
        }
    }

    /// The slot.
    pub(crate) fn get(&self) -> &Slot
        ensures { result.now ≡ self.now }
    {
        self.inner.as_ref()
    }

    /// The slot, to be changed.
    pub(crate) fn get_mut(&mut self) -> &mut Slot
        ensures* writes_back { sem 𝓛 (LendsSlot self.entry result) }
        ensures value { result.now ≡ self.old }
    {
        self.inner.as_mut()
    }

    /// Puts a session into the slot, in place of what was there.
    pub(crate) fn put(&mut self, slot: Slot)
        ensures { self.new ≡ slot }
    {
        *self.inner = slot;
    }
}
