//! A box as its raw pointer, which still owns the value: a handle of C holds such a pointer. The
//! value is the same before and after, and of a `RawBox` at most one box can be made.

ghost use Rattle.std.specs.Prelude.{◌≡◌};
ghost use Rattle.std_alloc.specs.Box.Ownership.{box_owns};

use std::alloc::Allocator;
use std::marker::Model;

/// A box as its raw pointer. It owns the value that `pointer` points to and the right to free its
/// block, so exactly one box can be made from it.
pub struct RawBox<T, A: Allocator> {
    pub pointer: *mut T,
    pub alloc: A,
    pub ghost value: { T },
}

impl<T, A: Allocator> Model for RawBox<T, A> {
    ghost also_owns = { λ raw. box_owns (A.dealloc_token raw.alloc) T.row raw.pointer raw.value };
}

impl<T: Drop, A: Allocator> RawBox<T, A> {
    /// Makes a box its raw pointer. Costs nothing.
    pub fn from_box(value: Box<T, A>) -> Self
        ensures { result.value ≡ value.value }
    {
        let (pointer, alloc) = Box::into_raw_with_allocator(value);
        RawBox { pointer, alloc }
    }

    /// Makes the raw pointer a box again. Costs nothing.
    pub fn into_box(self) -> Box<T, A>
        ensures { result.value ≡ self.value }
    {
        let RawBox { pointer, alloc } = self;
        // SAFETY: `pointer` is of a box, which `self` owned (`also_owns`). It is proved: the call
        // requires it.
        unsafe { Box::from_raw(alloc, pointer) }
    }
}
