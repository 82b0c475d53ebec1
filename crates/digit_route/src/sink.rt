//! Where the batches of a posting go.
ghost use Rattle.std.specs.Prelude.{◌≡◌, List, [], ◌∷◌, ◌++◌, OnOk, IfErr};
ghost use Rattle.digit_route.specs.States.{BatchState};

use crate::Batch;

/// What takes the batches of a posting, as the inboxes of a pool do.
pub trait BatchSink<'r> {
    /// The batches that it was given, in their order.
    ghost given: { Self → List BatchState };

    /// That it has no room for the batch.
    ghost refuses: { Self → BatchState → Type 0 };

    /// Takes a batch, or hands it back where it has no room.
    fn give(&mut self, batch: Batch<'r>) -> Result<(), Batch<'r>>
        ensures ok { OnOk result (given self.new ≡ given self.old ++ batch.entry ∷ []) }
        ensures err { IfErr result (λ b. (b ≡ batch.entry) × (given self.new ≡ given self.old)) }
        ensures full { IfErr result (refuses self.new) };
}
