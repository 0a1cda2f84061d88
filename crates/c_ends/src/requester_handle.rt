ghost use Rattle.std.specs.Prelude.{◌≡◌, ◌==◌, None, Some, IfSome, is_some};

use crate::kept_requester::KeptRequester;
use crate::open_requester::OpenRequester;
use std::alloc::Global;
use std::mem;

// The mark of an open requester: a handle that was never filled with zeros is hardly ever taken for one.
const OPEN_MARK: u32 = 0x7265_7164;

/// A requester in the memory of a caller, who fills it with zeros before the first call, and neither copies nor changes it
/// after.
#[repr(C)]
#[derive(Drop)]
pub struct RequesterHandle {
    pub kept: KeptRequester,
    pub mark: u32,
    pub ghost marked: { is_some kept.held ≡ (mark == 1919250788) },
}

impl RequesterHandle {
    /// A handle that holds nothing. In C it is one of zeros.
    pub fn closed(alloc: Global) -> RequesterHandle
        ensures { result.kept.held ≡ None }
    {
        RequesterHandle {
            kept: KeptRequester::empty(alloc),
            mark: 0,
        }
    }

    /// Takes the requester out, which is no longer held then.
    pub(crate) fn take_out(&mut self, alloc: Global) -> Option<Box<OpenRequester, Global>>
        ensures live { is_some result ≡ is_some self.old.kept.held }
        ensures value { IfSome result (λ end. self.old.kept.held ≡ Some end.value) }
        ensures after { self.new.kept.held ≡ None }
    {
        let RequesterHandle { kept, mark } = mem::replace(self, RequesterHandle::closed(alloc));
        if mark != OPEN_MARK {
            return None;
        }
        Some(kept.into_parts().into_box())
    }

    /// Holds a requester.
    pub(crate) fn put_in(&mut self, end: Box<OpenRequester, Global>)
        requires { self.old.kept.held ≡ None }
        ensures { self.new.kept.held ≡ Some end.value }
    {
        *self = RequesterHandle {
            kept: KeptRequester::keep(end),
            mark: OPEN_MARK,
        };
    }

    /// Whether it holds a requester.
    pub(crate) fn is_open(&self) -> bool
        ensures { result ≡ is_some self.now.kept.held }
    {
        self.mark == OPEN_MARK
    }
}
