//! The handle that C has.
ghost use Rattle.std.specs.Prelude.{◌≡◌, Option, is_some};
ghost use Rattle.ctf_c.specs.service.Owned.{pointer_coded, pointer_owns};
ghost use Rattle.ctf_c.specs.service.Served.{Served};

use crate::handles::OptionBox;
use crate::service::state::Service;
use std::alloc::Global;
use std::marker::Model;

/// A service on the heap, or nothing: a `NullableBox` without type parameters, since C has no
/// generic types.
#[repr(C)]
#[derive(Drop)]
pub struct HeapPointer {
    at: *mut u8,
    alloc: Global,
    pub ghost service: { Option Served } by { pointer_coded },
}

impl Model for HeapPointer {
    ghost also_owns = { λ p. pointer_owns p.alloc p.at p.service };
}

/// What is open, if anything is: an `OptionBox` without type parameters.
#[repr(C)]
#[derive(Drop)]
pub struct Handle {
    full: bool,
    pub held: HeapPointer,
    ghost tells: { full ≡ is_some held.service },
}

impl Handle {
    ghost use Rattle.std.specs.Borrow.{sem};
    ghost use Rattle.ctf_c.specs.service.OptionBoxes.{HandleLends};

    /// The same memory as an optional box.
    #[inline(always)]
    pub fn option_box(&mut self) -> &mut OptionBox<Service>
        ensures* writes_back { sem 𝓛 (HandleLends self.entry result) }
        ensures same { result.now.held.value ≡ self.old.held.service }
    {
        unsafe { &mut *(self as *mut Handle as *mut OptionBox<Service>) }
    }
}
