ghost use Rattle.std.specs.Prelude.{◌≡◌, ◌≤◌, [], Some, length, IfOk, OnErr};
ghost use Rattle.spdm_basis.specs.Stream.{HasFault, Takes};

use spdm_basis::{Bytes, Failed, Sink};
use std::alloc::Global;

/// A sink that keeps all that it is given. A call fails where there is no memory.
#[derive(Drop)]
pub(crate) struct TextSink {
    text: Bytes,
    failed: u64,
}

impl TextSink {
    pub(crate) fn new(alloc: Global) -> TextSink
        ensures { result.text ≡ [] }
    {
        TextSink {
            text: Bytes::new(alloc),
            failed: 0,
        }
    }

    pub(crate) fn as_slice(&self) -> &[u8]
        ensures { result.now ≡ self.now.text }
    {
        self.text.as_slice()
    }
}

impl Sink for TextSink {
    ghost contents = { λ s. Some s.text };

    ghost faults = { λ s. s.failed };

    fn write(&mut self, from: &[u8]) -> Result<usize, Failed> {
        match self.text.extend(from) {
            Ok(()) => Ok(from.len()),
            Err(_) => {
                self.failed = self.failed.saturating_add(1);
                Err(Failed)
            }
        }
    }
}
