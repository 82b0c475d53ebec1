//! A marker for a name.
ghost use Rattle.std.specs.Borrow.{ftrue};

use std::marker::{Model, PhantomData};

/// A marker for the name `J`. It owns nothing, so it may go to any thread, whatever `J` is.
#[derive(Drop)]
pub struct Named<J> {
    of: PhantomData<J>,
}

impl<J> Model for Named<J> {
    ghost also_owns = { λ _. ftrue };
}

// It owns nothing.
unsafe impl<J> Send for Named<J> {}

unsafe impl<J> Sync for Named<J> {}

impl<J> Named<J> {
    /// It takes no memory.
    pub fn new() -> Named<J> {
        Named { of: PhantomData }
    }
}
