//! What is left of an inbox.
ghost use Rattle.std.specs.Prelude.{◌≡◌, ℕ, [], ◌∷◌, ◌++◌, MatchOption};
ghost use Rattle.batch_inbox.specs.States.{left};
ghost use Rattle.batch_inbox.specs.Views.{batches_of};

use crate::round::Round;
use digit_route::Batch;
use std::fmt;
use std::marker::Model;

/// What was sent to an inbox and not taken when it was ended, half-linked batches too.
///
/// Contracts see the batches of each sender, from sender 0 on, in the order in which it sent them.
#[must_use]
#[derive(Drop)]
pub struct Rest<'r> {
    pub(crate) round: Round<'r>,
}

impl<'r> Model for Rest<'r> {
    ghost use Rattle.std.specs.Prelude.{List};
    ghost use Rattle.std.specs.Mem.Slots.{slots_items};
    ghost use Rattle.digit_route.specs.States.{BatchState};
    ghost use Rattle.link_inbox.specs.Remains.{rows};

    ghost Value = { List (List BatchState) };

    ghost view = { λ r. rows (slots_items r.round.closed.slots) r.round.turns r.round.next 0 r.round.senders };
}

impl<'r> Rest<'r> {
    /// Hands out the first batch that is left of some sender, or says that nothing is left. All calls
    /// together read each of the inbox's nodes once.
    pub fn next(&mut self) -> Option<Batch<'r>>
        ensures { MatchOption result
            ((k : ℕ) → left self.old k ≡ [])
            (λ x. (k : ℕ) → left self.old k ≡ batches_of k (x ∷ []) ++ left self.new k) }
    {
        self.round.next()
    }
}

// The batches are not printed.
impl fmt::Debug for Rest<'_> {
    fn fmt<W: fmt::Write>(&self, f: &mut fmt::Formatter<W>) -> fmt::Result {
        f.write_str("Rest")
    }
}
