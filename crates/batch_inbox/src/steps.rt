//! What each step on an inbox does to the pass that makes it.
use crate::placing::Placing;
use crate::rule::View;
use crossbeam_queue::protocol::{Join, Lesson, Outcome, Split};
use digit_route::Batch;
use std::marker::PhantomData;

/// The first pass becomes the receiver's, at the place that `J` names.
pub struct Opens<J> {
    place: PhantomData<J>,
}

impl<'r, J: Placing> Split<View<'r>> for Opens<J> {
    ghost use Rattle.std.specs.Prelude.{[]};
    ghost use Rattle.batch_inbox.specs.Views.{taker, spent};

    ghost left = { λ v. taker J.place 0 [] [] };

    ghost right = { λ v. spent };
}

/// The receiver makes the next sender's seat, or takes a seat in.
pub struct Seats;

impl<'r> Split<View<'r>> for Seats {
    ghost use Rattle.std.specs.Prelude.{[], ◌+◌};
    ghost use Rattle.batch_inbox.specs.Views.{taker, poster};

    ghost left = { λ v. taker v.place (v.made + 1) v.taken v.known };

    ghost right = { λ v. poster v.place v.made [] };
}

impl<'r> Join<View<'r>> for Seats {
    ghost use Rattle.std.specs.Prelude.{[], ◌∷◌, ◌++◌};
    ghost use Rattle.batch_inbox.specs.Views.{taker, spent};

    ghost both = { λ v w. taker v.place v.made v.taken (v.known ++ w.sent ∷ []) };

    ghost spent = { spent };
}

/// A sender posts a batch.
pub struct Posts;

impl<'r> Outcome<Batch<'r>, View<'r>> for Posts {
    ghost use Rattle.std.specs.Prelude.{[], ◌∷◌, ◌++◌, ◌≡◌};
    ghost use Rattle.batch_inbox.specs.Views.{poster};

    ghost then = { λ v x w. w ≡ poster v.place v.sender (v.sent ++ x ∷ []) };
}

/// The receiver takes a batch, or learns what `L` says of an empty queue.
pub struct Takes<L> {
    lesson: PhantomData<L>,
}

impl<'r, L> Outcome<Batch<'r>, View<'r>> for Takes<L> {
    ghost use Rattle.std.specs.Prelude.{[], ◌∷◌, ◌++◌, ◌≡◌};
    ghost use Rattle.batch_inbox.specs.Views.{taker, place_of};

    ghost then = { λ v x w. (w ≡ taker v.place v.made (v.taken ++ x ∷ []) v.known) × (place_of x ≡ v.place) };
}

impl<'r, L: Lesson<Batch<'r>, View<'r>>> Lesson<Batch<'r>, View<'r>> for Takes<L> {
    ghost fact = { L.fact };
}

/// A lesson of nothing.
pub struct Nothing;

impl<'r> Lesson<Batch<'r>, View<'r>> for Nothing {
    ghost use Rattle.std.specs.Prelude.{⊤};

    ghost fact = { λ v items. ⊤ };
}

/// A receiver that took in all seats takes a batch, or learns what is in the queue.
pub struct Rests;

impl<'r> Outcome<Batch<'r>, View<'r>> for Rests {
    ghost use Rattle.std.specs.Prelude.{[], ◌∷◌, ◌++◌, ◌≡◌, ℕ};
    ghost use Rattle.batch_inbox.specs.Views.{taker, batches_of, left_of, place_of};

    ghost then = { λ v x w. (w ≡ taker v.place v.made (v.taken ++ x ∷ []) v.known)
        × (place_of x ≡ v.place)
        × ((s : ℕ) → left_of v s ≡ batches_of s (x ∷ []) ++ left_of w s) };
}

impl<'r> Lesson<Batch<'r>, View<'r>> for Rests {
    ghost use Rattle.std.specs.Prelude.{◌++◌, ◌≡◌, ℕ, slice_index_or, []};
    ghost use Rattle.batch_inbox.specs.Views.{batches_of};

    ghost fact = { λ v items. (s : ℕ)
        → slice_index_or v.known s [] ≡ batches_of s v.taken ++ batches_of s items };
}
