//! The handle of an allocator, which may come late.
ghost use Rattle.std.specs.Prelude.{◌≡◌, List, [], ◌∷◌, MatchOption, option_to_list};
ghost use Rattle.slot_chain.specs.LateHandles.{frees_late};

use std::alloc::{AllocError, Allocator};
use std::marker::Model;

/// The handle of an allocator, which comes with the first memory. So an array may stand where no handle has
/// come yet, as a plain array without memory: who puts into it and takes out of it needn't ask whether it is
/// there. In contracts it is the list of that handle, if it has come.
#[derive(Drop)]
pub(crate) struct LateHandle<A> {
    alloc: Option<A>,
}

impl<A> Model for LateHandle<A> {
    ghost use Rattle.std.specs.Prelude.{List, option_to_list};

    ghost Value = { List A };

    ghost view = { λ l. option_to_list l.alloc };
}

impl<A> LateHandle<A> {
    /// No handle has come: all memory is refused.
    pub(crate) fn none() -> LateHandle<A>
        ensures { result ≡ [] }
    {
        LateHandle { alloc: None }
    }

    /// The handle that came.
    pub(crate) fn of(alloc: A) -> LateHandle<A>
        ensures { result ≡ alloc ∷ [] }
    {
        LateHandle { alloc: Some(alloc) }
    }

    fn handle(&self) -> Option<&A>
        ensures { MatchOption result (self.now ≡ []) (λ h. self.now ≡ h.now ∷ []) }
    {
        self.alloc.as_ref()
    }
}

// By hand, as each allocator: what owns memory is said by clauses that the borrow checker doesn't read.
unsafe impl<A: Allocator> Allocator for LateHandle<A> {
    ghost dealloc_token = { frees_late A.dealloc_token };

    fn allocate(&self, size: usize, align: usize) -> Result<*mut u8, AllocError> {
        match self.handle() {
            Some(alloc) => alloc.allocate(size, align),
            None => Err(AllocError),
        }
    }

    unsafe fn deallocate(&self, ptr: *mut u8, size: usize, align: usize) {
        match self.handle() {
            Some(alloc) => unsafe { alloc.deallocate(ptr, size, align) },
            None => {}
        }
    }
}
