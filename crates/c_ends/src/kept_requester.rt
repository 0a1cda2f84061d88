// A boxed requester behind a pointer whose type names nothing, so that C may hold it.
ghost use Rattle.std.specs.Prelude.{◌≡◌, Option, Some, None, IsSome};
ghost use Rattle.c_ends.specs.declared.open_requester.OpenRequester.{OpenRequester};
ghost use Rattle.c_ends.specs.Keeping.{requester_coded, requester_owns};

use crate::open_requester::OpenRequester;
use crate::parts::Parts;
use std::alloc::Global;
use std::marker::Model;

/// A requester, or nothing.
#[repr(C)]
#[derive(Drop)]
pub struct KeptRequester {
    at: *mut u8,
    alloc: Global,
    pub ghost held: { Option OpenRequester } by { requester_coded },
}

impl Model for KeptRequester {
    ghost also_owns = { λ k. requester_owns k.held k.alloc k.at };
}

impl KeptRequester {
    /// The requester of a box.
    pub fn keep(end: Box<OpenRequester, Global>) -> KeptRequester
        ensures { result.held ≡ Some end.value }
    {
        KeptRequester::of_parts(Parts::of(end))
    }

    /// Nothing.
    pub fn empty(alloc: Global) -> KeptRequester
        ensures { result.held ≡ None }
    {
        KeptRequester {
            at: std::ptr::null_mut(),
            alloc,
        }
    }

    // The requester of these parts.
    fn of_parts(parts: Parts<OpenRequester, Global>) -> KeptRequester
        ensures { result.held ≡ Some parts.value }
    {
        let Parts { ptr, alloc } = parts;
        KeptRequester {
            at: ptr as *mut u8,
            alloc,
        }
    }

    /// The parts of the box.
    pub fn into_parts(self) -> Parts<OpenRequester, Global>
        requires { IsSome self.held }
        ensures { self.held ≡ Some result.value }
    {
        let KeptRequester { at, alloc } = self;
        Parts {
            ptr: at as *mut OpenRequester,
            alloc,
        }
    }
}
