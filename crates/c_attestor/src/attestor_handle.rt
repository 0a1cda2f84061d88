ghost use Rattle.std.specs.Prelude.{◌≡◌, ◌==◌, None, Some, IfSome, is_some};

use crate::kept_attestor::KeptAttestor;
use crate::open_attestor::OpenAttestor;
use std::alloc::Global;
use std::mem;

// The mark of an open attestor: a handle that was never filled with zeros is hardly ever taken for one.
const OPEN_MARK: u32 = 0x6174_7464;

/// An attestor in the memory of a caller, who fills it with zeros before the first call, and neither copies nor changes it
/// after.
#[repr(C)]
#[derive(Drop)]
pub struct AttestorHandle {
    pub kept: KeptAttestor,
    pub mark: u32,
    pub ghost marked: { is_some kept.held ≡ (mark == 1635021924) },
}

impl AttestorHandle {
    /// A handle that holds nothing. In C it is one of zeros.
    pub fn closed(alloc: Global) -> AttestorHandle
        ensures { result.kept.held ≡ None }
    {
        AttestorHandle {
            kept: KeptAttestor::empty(alloc),
            mark: 0,
        }
    }

    /// Takes the attestor out, which is no longer held then.
    pub(crate) fn take_out(&mut self, alloc: Global) -> Option<Box<OpenAttestor, Global>>
        ensures live { is_some result ≡ is_some self.old.kept.held }
        ensures value { IfSome result (λ end. self.old.kept.held ≡ Some end.value) }
        ensures after { self.new.kept.held ≡ None }
    {
        let AttestorHandle { kept, mark } = mem::replace(self, AttestorHandle::closed(alloc));
        if mark != OPEN_MARK {
            return None;
        }
        Some(kept.into_parts().into_box())
    }

    /// Holds an attestor.
    pub(crate) fn put_in(&mut self, end: Box<OpenAttestor, Global>)
        requires { self.old.kept.held ≡ None }
        ensures { self.new.kept.held ≡ Some end.value }
    {
        *self = AttestorHandle {
            kept: KeptAttestor::keep(end),
            mark: OPEN_MARK,
        };
    }

    /// Whether it holds an attestor.
    pub(crate) fn is_open(&self) -> bool
        ensures { result ≡ is_some self.now.kept.held }
    {
        self.mark == OPEN_MARK
    }
}
