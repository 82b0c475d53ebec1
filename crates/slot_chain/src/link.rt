//! A box, or nothing, in one word.
ghost use Rattle.std.specs.Prelude.{◌≡◌, Option, Some, None, IsTrue, ◌↔◌};
ghost use denote.RawPtr.{null_ptr};
ghost use Rattle.slot_chain.specs.Links.{link_owns, link_lent};

use std::alloc::Global;
use std::marker::{Model, Send};
use std::{mem, ptr};

// `Option<Box<T>>` takes two words. Here a pointer is null where there is no box, or what it was when
// the box was moved out. The box is one of the heap that `Global` stands for, so the link needs no
// allocator.
pub(crate) struct Link<T> {
    at: *const T,
    pub(crate) ghost value: { Option T },
}

impl<T> Model for Link<T> {
    ghost also_owns = { λ l. link_owns T.row l.at l.value };

    ghost also_shares = { λ l _ κ. link_lent T.row l.at l.value κ };
}

// It may go to another thread if its value may.
unsafe impl<T: Send> Send for Link<T> {}

impl<T> Link<T> {
    /// No box, and null.
    pub(crate) fn empty() -> Link<T>
        ensures { result ≡ record { at = null_ptr; value = None } }
    {
        Link { at: ptr::null() }
    }

    // This pointer, with no box.
    fn left(at: *const T) -> Link<T>
        ensures { result ≡ record { at = at; value = None } }
    {
        Link { at }
    }

    // Its pointer.
    fn at(&self) -> *const T
        ensures { result ≡ self.now.at }
    {
        self.at
    }

    /// Moves out what is in it. The pointer stays as it was, so nothing is written.
    #[inline]
    pub(crate) fn leave(&mut self) -> Link<T>
        ensures moved { result ≡ self.old }
        ensures left { self.new ≡ record { at = self.old.at; value = None } }
    {
        let left = Link::left(self.at());
        mem::replace(self, left)
    }

    /// The box, given up.
    pub(crate) fn of(b: Box<T>) -> Link<T>
    where
        T: Drop,
        ensures { result.value ≡ Some b.value }
    {
        Link {
            at: Box::into_raw(b),
        }
    }

    /// Puts a link in the place of one that has no box. There is nothing to drop, and none is looked
    /// for.
    #[inline]
    pub(crate) fn set(&mut self, link: Link<T>)
        requires { self.old.value ≡ None }
        ensures { self.new ≡ link }
    {
        mem::replace(self, link).close();
    }

    /// The box again. Its caller knows that there is one.
    pub(crate) fn into_box(self, alloc: Global) -> Box<T>
        requires { ¬ (self.value ≡ None) }
        ensures { self.value ≡ Some result.value }
    {
        let Link { at } = self;
        unsafe { Box::from_raw(alloc, at.cast_mut()) }
    }

    /// Whether there is no box. Its caller knows that it is null then.
    pub(crate) fn is_empty(&self) -> bool
        requires { (self.now.value ≡ None) → (self.now.at ≡ null_ptr) }
        ensures { IsTrue result ↔ (self.now.value ≡ None) }
    {
        self.at.is_null()
    }

    /// What is in the box, to be read.
    pub(crate) fn get(&self) -> &T
        requires { ¬ (self.now.value ≡ None) }
        ensures { self.now.value ≡ Some result.now }
    {
        unsafe { &*self.at }
    }

    /// Lets it go where there is no box.
    pub(crate) fn close(self)
        requires { self.value ≡ None }
    {
        self.forget();
    }

    /// Lets go of the pointer alone.
    pub(crate) fn forget(self) {
        let Link { at: _ } = self;
    }
}
