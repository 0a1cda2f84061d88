// A boxed attestor behind a pointer whose type names nothing, so that C may hold it.
ghost use Rattle.std.specs.Prelude.{◌≡◌, Option, Some, None, IsSome};
ghost use Rattle.c_attestor.specs.declared.open_attestor.OpenAttestor.{OpenAttestor};
ghost use Rattle.c_attestor.specs.Keeping.{attestor_coded, attestor_owns};

use crate::open_attestor::OpenAttestor;
use c_ends::parts::Parts;
use std::alloc::Global;
use std::marker::Model;

/// An attestor, or nothing.
#[repr(C)]
#[derive(Drop)]
pub struct KeptAttestor {
    at: *mut u8,
    alloc: Global,
    pub ghost held: { Option OpenAttestor } by { attestor_coded },
}

impl Model for KeptAttestor {
    ghost also_owns = { λ k. attestor_owns k.held k.alloc k.at };
}

impl KeptAttestor {
    /// The attestor of a box.
    pub fn keep(end: Box<OpenAttestor, Global>) -> KeptAttestor
        ensures { result.held ≡ Some end.value }
    {
        KeptAttestor::of_parts(Parts::of(end))
    }

    /// Nothing.
    pub fn empty(alloc: Global) -> KeptAttestor
        ensures { result.held ≡ None }
    {
        KeptAttestor {
            at: std::ptr::null_mut(),
            alloc,
        }
    }

    // The attestor of these parts.
    fn of_parts(parts: Parts<OpenAttestor, Global>) -> KeptAttestor
        ensures { result.held ≡ Some parts.value }
    {
        let Parts { ptr, alloc } = parts;
        KeptAttestor {
            at: ptr as *mut u8,
            alloc,
        }
    }

    /// The parts of the box.
    pub fn into_parts(self) -> Parts<OpenAttestor, Global>
        requires { IsSome self.held }
        ensures { self.held ≡ Some result.value }
    {
        let KeptAttestor { at, alloc } = self;
        Parts {
            ptr: at as *mut OpenAttestor,
            alloc,
        }
    }
}
