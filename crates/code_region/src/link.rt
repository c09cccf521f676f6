// A value behind a raw pointer, and the right to its block.
ghost use Rattle.std.specs.Prelude.{◌≡◌};
ghost use Rattle.std.specs.Borrow.{sem};
ghost use Rattle.std.specs.Box.Ownership.{box_owns};
ghost use denote.Struct.Lending.{lent_at};

use std::alloc::Allocator;
use std::marker::Model;

/// The one pointer that owns a block with a value in it. Dropping the link frees the block, once.
pub(crate) struct Link<T, A: Allocator> {
    at: *mut T,
    alloc: A,
    pub(crate) ghost value: { T },
}

impl<T, A: Allocator> Model for Link<T, A> {
    ghost also_owns = { λ l. box_owns (A.dealloc_token l.alloc) T.row l.at l.value };

    ghost also_shares = { λ l _ κ. lent_at T.row l.at l.value κ };
}

impl<T, A: Allocator> Link<T, A> {
    ghost use Rattle.code_region.specs.Link.{LendsValue};

    /// The pointer to a boxed value, which stays where it is.
    pub(crate) fn make(block: Box<T, A>) -> Link<T, A>
    where
        T: Drop,
        ensures { result.value ≡ block.value }
    {
        let (at, alloc) = Box::into_raw_with_allocator(block);
        Link { at, alloc }
    }

    /// The value.
    pub(crate) fn read(&self) -> &T
        ensures { result.now ≡ self.now.value }
    {
        unsafe { &*self.at }
    }

    /// The value, to be changed where it is.
    pub(crate) fn write(&mut self) -> &mut T
        ensures* writes_back { sem 𝓛 (LendsValue T.row A.row A.Allocator self.entry result) }
        ensures value { result.now ≡ self.old.value }
    {
        unsafe { &mut *self.at }
    }

    /// The box again. Dropping it frees the block.
    pub(crate) fn into_box(self) -> Box<T, A>
        ensures { result.value ≡ self.value }
    {
        let Link { at, alloc } = self;
        unsafe { Box::from_raw(alloc, at) }
    }
}

impl<T: Drop, A: Allocator> Drop for Link<T, A> {
    fn drop(self) {
        drop(self.into_box());
    }
}
