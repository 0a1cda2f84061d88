ghost use Rattle.std.specs.Prelude.{◌≤◌, vec_capacity};

use spdm_basis::{Eid, OutOfMemory};
use std::alloc::Global;

// The longest packet that a frame has.
const LONGEST: usize = 65_535;

/// Room for a packet that waits to be answered, allocated at construction.
#[derive(Drop)]
pub(crate) struct Waiting {
    pub(crate) bytes: Vec<u8>,
    // The end point that sent the packet, where one waits.
    pub(crate) from: Option<Eid>,
    pub(crate) ghost room: { 65535 ≤ vec_capacity bytes },
}

impl Waiting {
    ghost use Rattle.std.specs.Prelude.{◌≡◌, ◌≤◌, length, None, Some, IfOk};

    // Nothing waits.
    pub(crate) fn new(alloc: Global) -> Result<Waiting, OutOfMemory>
        ensures { IfOk result (λ waiting. waiting.from ≡ None) }
    {
        match Vec::with_capacity(alloc, LONGEST) {
            Ok(bytes) => Ok(Waiting { bytes, from: None }),
            Err(_) => Err(OutOfMemory),
        }
    }

    // A packet of this end point waits.
    pub(crate) fn hold(&mut self, from: Eid, packet: &[u8])
        requires { length packet.now ≤ LONGEST }
        ensures bytes { self.new.bytes.items ≡ packet.now }
        ensures from { self.new.from ≡ Some from }
    {
        self.bytes.clear();
        let _ = self.bytes.extend_from_slice(packet);
        self.from = Some(from);
    }

    // It waits no longer.
    pub(crate) fn release(&mut self)
        ensures { self.new.from ≡ None }
    {
        self.from = None;
    }

    // Its bytes.
    pub(crate) fn packet(&self) -> &[u8]
        ensures { result.now ≡ self.now.bytes.items }
    {
        self.bytes.as_slice()
    }
}
