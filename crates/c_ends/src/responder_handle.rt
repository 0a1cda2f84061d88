ghost use Rattle.std.specs.Prelude.{◌≡◌, ◌==◌, None, Some, IfSome, is_some};

use crate::kept_responder::KeptResponder;
use crate::open_responder::OpenResponder;
use std::alloc::Global;
use std::mem;

// The mark of an open responder: a handle that was never filled with zeros is hardly ever taken for one.
const OPEN_MARK: u32 = 0x7273_7064;

/// A responder in the memory of a caller, who fills it with zeros before the first call, and neither copies nor changes it
/// after.
#[repr(C)]
#[derive(Drop)]
pub struct ResponderHandle {
    pub kept: KeptResponder,
    pub mark: u32,
    pub ghost marked: { is_some kept.held ≡ (mark == 1920168036) },
}

impl ResponderHandle {
    /// A handle that holds nothing. In C it is one of zeros.
    pub fn closed(alloc: Global) -> ResponderHandle
        ensures { result.kept.held ≡ None }
    {
        ResponderHandle {
            kept: KeptResponder::empty(alloc),
            mark: 0,
        }
    }

    /// Takes the responder out, which is no longer held then.
    pub(crate) fn take_out(&mut self, alloc: Global) -> Option<Box<OpenResponder, Global>>
        ensures live { is_some result ≡ is_some self.old.kept.held }
        ensures value { IfSome result (λ end. self.old.kept.held ≡ Some end.value) }
        ensures after { self.new.kept.held ≡ None }
    {
        let ResponderHandle { kept, mark } = mem::replace(self, ResponderHandle::closed(alloc));
        if mark != OPEN_MARK {
            return None;
        }
        Some(kept.into_parts().into_box())
    }

    /// Holds a responder.
    pub(crate) fn put_in(&mut self, end: Box<OpenResponder, Global>)
        requires { self.old.kept.held ≡ None }
        ensures { self.new.kept.held ≡ Some end.value }
    {
        *self = ResponderHandle {
            kept: KeptResponder::keep(end),
            mark: OPEN_MARK,
        };
    }

    /// Whether it holds a responder.
    pub(crate) fn is_open(&self) -> bool
        ensures { result ≡ is_some self.now.kept.held }
    {
        self.mark == OPEN_MARK
    }
}
