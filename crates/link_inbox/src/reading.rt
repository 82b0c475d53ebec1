//! How the slots of an ended inbox are read: once round from each sender's turn.
ghost use Rattle.std.specs.Prelude.{◌≡◌, ◌≢◌, ◌+◌, ◌*◌, ◌/◌, ◌<◌, ◌∷◌, [], ℕ, IfSome, IfNone};
ghost use Rattle.link_inbox.specs.Remains.{ahead};
ghost use Rattle.link_inbox.specs.Reading.{left_in};

use crate::round::{Round, spot_of};
use crate::rule::NODES;
use digit_route::Batch;

impl<'r> Round<'r> {
    // Reads the next slot.
    fn step(&mut self) -> Option<Batch<'r>>
        requires { self.old.next < self.old.senders * 16 }
        ensures moved { (self.new.next ≡ self.old.next + 1) × (self.new.senders ≡ self.old.senders) }
        ensures owner { IfSome result (λ b. b.sender ≡ self.old.next / 16) }
        ensures first { left_in self.old (self.old.next / 16)
            ≡ ahead result (left_in self.new (self.old.next / 16)) }
        ensures others { (s : ℕ) → s ≢ self.old.next / 16 → left_in self.new s ≡ left_in self.old s }
    {
        let at = spot_of(&self.turns, self.next);
        let found = self.closed.take(at).into_batch();
        self.next += 1;
        found
    }

    // Hands out the first batch that is left of some sender.
    pub(crate) fn next(&mut self) -> Option<Batch<'r>>
        ensures senders { self.new.senders ≡ self.old.senders }
        ensures some { IfSome result (λ b. (b.sender < self.old.senders)
            × (left_in self.old b.sender ≡ b ∷ left_in self.new b.sender)
            × ((k : ℕ) → k ≢ b.sender → left_in self.new k ≡ left_in self.old k)) }
        ensures none { IfNone result ((s : ℕ) → s < self.old.senders → left_in self.old s ≡ []) }
    {
        while self.next < self.senders * NODES {
            match self.step() {
                Some(batch) => return Some(batch),
                None => {}
            }
        }
        None
    }
}
