//! A box as its pointer, or nothing.
ghost use Rattle.std.specs.Prelude.{◌≡◌, None, Some, Option, is_some, true};
ghost use Rattle.std.specs.Coded.{coded_option};
ghost use Rattle.ctf_c.specs.handles.Owned.{held_lent, held_owns};

use std::alloc::Allocator;
use std::marker::Model;

/// A value on the heap, or nothing.
#[repr(C)]
#[derive(Drop)]
pub struct NullableBox<T, A: Allocator> {
    at: *mut T,
    alloc: A,
    pub ghost value: { Option T } by { coded_option T.code },
}

impl<T, A: Allocator> Model for NullableBox<T, A> {
    ghost also_owns = { λ h. held_owns (A.dealloc_token h.alloc) T.row h.at h.value };

    ghost also_shares = { λ h _ κ. held_lent T.row h.at h.value κ };
}

impl<T, A: Allocator> NullableBox<T, A> {
    /// Nothing, at any address.
    fn none_at(at: *mut T, alloc: A) -> NullableBox<T, A>
        ensures { result.value ≡ None }
    {
        NullableBox { at, alloc }
    }

    /// Nothing.
    pub fn none(alloc: A) -> NullableBox<T, A>
        ensures { result.value ≡ None }
    {
        let at = std::ptr::null_mut();
        NullableBox::none_at(at, alloc)
    }

    /// Takes over the value of a box.
    pub fn of(value: Box<T, A>) -> NullableBox<T, A>
    where
        T: Drop,
        ensures { result.value ≡ Some value.value }
    {
        let (at, alloc) = Box::into_raw_with_allocator(value);
        NullableBox { at, alloc }
    }

    /// The value, as a box.
    pub fn into_box(self) -> Box<T, A>
        requires { is_some self.value ≡ true }
        ensures { Some result.value ≡ self.value }
    {
        let NullableBox { at, alloc } = self;
        unsafe { Box::from_raw(alloc, at) }
    }
}

impl<T, A: Allocator> NullableBox<T, A> {
    ghost use Rattle.std.specs.Borrow.{sem};
    ghost use Rattle.ctf_c.specs.handles.Lent.{HeldLends};

    /// The value.
    #[inline(always)]
    pub fn get(&self) -> &T
        requires { is_some self.now.value ≡ true }
        ensures { Some result.now ≡ self.now.value }
    {
        unsafe { &*self.at }
    }

    /// The value, to change it.
    #[inline(always)]
    pub fn get_mut(&mut self) -> &mut T
        requires { is_some self.old.value ≡ true }
        ensures* writes_back { sem 𝓛 (HeldLends T.row A.row A.Allocator self.entry result) }
        ensures value { Some result.now ≡ self.old.value }
    {
        unsafe { &mut *self.at }
    }
}
