//! A value on the heap, or nothing, with a flag.
ghost use Rattle.std.specs.Prelude.{◌≡◌, None, Some, is_some, option_map};

use crate::handles::nullable_box::NullableBox;
use std::alloc::Global;
use std::mem;

/// A value on the heap, or nothing, with a flag that says which.
#[repr(C)]
#[derive(Drop)]
pub struct OptionBox<T> {
    full: bool,
    pub held: NullableBox<T, Global>,
    ghost tells: { full ≡ is_some held.value },
}

impl<T> OptionBox<T> {
    /// Nothing.
    pub fn none(alloc: Global) -> OptionBox<T>
        ensures { result.held.value ≡ None }
    {
        OptionBox {
            full: false,
            held: NullableBox::none(alloc),
        }
    }

    /// Takes over the value of a box.
    #[inline(always)]
    pub fn of(value: Box<T>) -> OptionBox<T>
    where
        T: Drop,
        ensures { result.held.value ≡ Some value.value }
    {
        OptionBox {
            full: true,
            held: NullableBox::of(value),
        }
    }

    /// The value as a box, if there is one.
    #[inline(always)]
    pub fn into_box(self) -> Option<Box<T>>
    where
        T: Drop,
        ensures { option_map (λ b. b.value) result ≡ self.held.value }
    {
        let OptionBox { full, held } = self;
        if full { Some(held.into_box()) } else { None }
    }

    /// Takes the value out.
    pub fn take(&mut self, alloc: Global) -> Option<Box<T>>
    where
        T: Drop,
        ensures value { option_map (λ b. b.value) result ≡ self.old.held.value }
        ensures none { self.new.held.value ≡ None }
    {
        mem::replace(self, OptionBox::none(alloc)).into_box()
    }

    /// Takes over the value of a box, in place of the value that was there.
    pub fn hold(&mut self, value: Box<T>)
    where
        T: Drop,
        ensures { self.new.held.value ≡ Some value.value }
    {
        drop(mem::replace(self, OptionBox::of(value)).into_box());
    }
}

impl<T> OptionBox<T> {
    ghost use Rattle.std.specs.Borrow.{sem};
    ghost use Rattle.ctf_c.specs.handles.Lent.{OptionBoxLends};

    /// The value, if there is one.
    #[inline(always)]
    pub fn get(&self) -> Option<&T>
        ensures { option_map (λ x. x.now) result ≡ self.now.held.value }
    {
        if self.full {
            Some(self.held.get())
        } else {
            None
        }
    }

    /// The value, to change it, if there is one.
    #[inline(always)]
    pub fn get_mut(&mut self) -> Option<&mut T>
        ensures* writes_back { sem 𝓛 (OptionBoxLends T.row self.entry result) }
        ensures value { option_map (λ x. x.now) result ≡ self.old.held.value }
    {
        if !self.full {
            return None;
        }
        Some(self.held.get_mut())
    }
}
