//! What is left of an inbox.
ghost use Rattle.std.specs.Prelude.{◌≡◌, ℕ, List, [], ◌∷◌, ◌++◌, MatchOption};
ghost use Rattle.batch_inbox.specs.States.{left};
ghost use Rattle.batch_inbox.specs.Views.{batches_of};

use crate::rule::{Line, Pass};
use crate::steps::Rests;
use digit_route::Batch;
use std::fmt;
use std::marker::Model;
use std::sync::Wait;

/// What was sent to an inbox and not taken when it was ended.
///
/// Contracts see the batches of each sender, from sender 0 on, in the order in which it sent them.
#[must_use]
pub struct Rest<'r> {
    pub(crate) queue: Line<'r>,
    pub(crate) pass: Pass<'r>,
}

impl<'r> Model for Rest<'r> {
    ghost use Rattle.std.specs.Prelude.{◌≡◌, List, length};
    ghost use Rattle.crossbeam_queue.specs.SegTies.{IsSegPassOf};
    ghost use Rattle.digit_route.specs.States.{BatchState};
    ghost use Rattle.batch_inbox.specs.Views.{taker, lefts};

    ghost Value = { List (List BatchState) };

    ghost view = { λ r. lefts r.pass.me.view.client.taken 0 r.pass.me.view.client.known };

    ghost invariant = { λ r. IsSegPassOf r.queue r.pass
        × (r.pass.me.view.client
        ≡ taker r.pass.me.view.client.place (length r.pass.me.view.client.known)
        r.pass.me.view.client.taken r.pass.me.view.client.known) };
}

impl<'r> Drop for Rest<'r> {
    fn drop(self) {
        let Self { queue, pass: _ } = self;
        queue.destroy();
    }
}

impl<'r> Rest<'r> {
    /// Hands out the first batch that is left of some sender, or says that nothing is left.
    pub fn next<R: Wait>(&mut self, rt: &R) -> Option<Batch<'r>>
        ensures { MatchOption result
            ((k : ℕ) → left self.old k ≡ [])
            (λ x. (k : ℕ) → left self.old k ≡ batches_of k (x ∷ []) ++ left self.new k) }
    {
        self.queue.pop_as::<Rests, R>(rt, &mut self.pass)
    }
}

// The batches are not printed.
impl fmt::Debug for Rest<'_> {
    fn fmt<W: fmt::Write>(&self, f: &mut fmt::Formatter<W>) -> fmt::Result {
        f.write_str("Rest")
    }
}
