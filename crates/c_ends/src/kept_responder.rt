// A boxed responder behind a pointer whose type names nothing, so that C may hold it.
ghost use Rattle.std.specs.Prelude.{◌≡◌, Option, Some, None, IsSome};
ghost use Rattle.c_ends.specs.declared.open_responder.OpenResponder.{OpenResponder};
ghost use Rattle.c_ends.specs.Keeping.{responder_coded, responder_owns};

use crate::open_responder::OpenResponder;
use crate::parts::Parts;
use std::alloc::Global;
use std::marker::Model;

/// A responder, or nothing.
#[repr(C)]
#[derive(Drop)]
pub struct KeptResponder {
    at: *mut u8,
    alloc: Global,
    pub ghost held: { Option OpenResponder } by { responder_coded },
}

impl Model for KeptResponder {
    ghost also_owns = { λ k. responder_owns k.held k.alloc k.at };
}

impl KeptResponder {
    /// The responder of a box.
    pub fn keep(end: Box<OpenResponder, Global>) -> KeptResponder
        ensures { result.held ≡ Some end.value }
    {
        KeptResponder::of_parts(Parts::of(end))
    }

    /// Nothing.
    pub fn empty(alloc: Global) -> KeptResponder
        ensures { result.held ≡ None }
    {
        KeptResponder {
            at: std::ptr::null_mut(),
            alloc,
        }
    }

    // The responder of these parts.
    fn of_parts(parts: Parts<OpenResponder, Global>) -> KeptResponder
        ensures { result.held ≡ Some parts.value }
    {
        let Parts { ptr, alloc } = parts;
        KeptResponder {
            at: ptr as *mut u8,
            alloc,
        }
    }

    /// The parts of the box.
    pub fn into_parts(self) -> Parts<OpenResponder, Global>
        requires { IsSome self.held }
        ensures { self.held ≡ Some result.value }
    {
        let KeptResponder { at, alloc } = self;
        Parts {
            ptr: at as *mut OpenResponder,
            alloc,
        }
    }
}
