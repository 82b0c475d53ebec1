//! A list that contracts alone see.
ghost use Rattle.std.specs.Prelude.{◌≡◌, List, [], ◌∷◌, ◌++◌};
ghost use Rattle.std.specs.Borrow.{ftrue};

use std::marker::{Model, PhantomData};

/// A list that contracts alone see. It takes no memory, and its calls do nothing when they run.
#[derive(Drop)]
pub struct Notes<T> {
    of: PhantomData<T>,
    pub ghost items: { List T },
}

impl<T> Model for Notes<T> {
    ghost also_owns = { λ _. ftrue };
}

// It owns nothing.
unsafe impl<T: Send> Send for Notes<T> {}

impl<T> Notes<T> {
    /// The empty list.
    pub(crate) fn new() -> Notes<T>
        ensures { result.items ≡ [] }
    {
        Notes { of: PhantomData }
    }

    /// The list with one value more, which stays where it is.
    pub(crate) fn and(&self, value: &T) -> Notes<T>
        ensures { result.items ≡ self.now.items ++ value.now ∷ [] }
    {
        Notes { of: PhantomData }
    }

    /// The list with these values more, which stay where they are.
    pub(crate) fn and_all(&self, values: &[T]) -> Notes<T>
        ensures { result.items ≡ self.now.items ++ values.now }
    {
        let mut all = self.with(&Notes::new());
        for value in values {
            all = all.and(value);
        }
        all
    }

    /// This list, and then the other.
    pub(crate) fn with(&self, other: &Notes<T>) -> Notes<T>
        ensures { result.items ≡ self.now.items ++ other.now.items }
    {
        Notes { of: PhantomData }
    }
}
