//! The count of bytes that a cache keeps beside its row.
ghost use Rattle.std.specs.Prelude.{◌≡◌, ℕ, ◌+◌};
ghost use Rattle.slot_chain.specs.Counts.{capped, sizes};

use crate::Batch;
use crate::row::Row;

/// The count of bytes once buffers were taken out of `row`: `before` counted all of them, `taken`
/// those that are gone. Each count stops at the greatest `u64`. Only where `before` stands there is
/// the sum found by a walk.
pub(crate) fn bytes_left(before: u64, taken: u64, row: &Row<'_>) -> u64
    requires { (gone : ℕ) × (taken ≡ capped gone) × (before ≡ capped (gone + sizes row.now.items)) }
    ensures { result ≡ capped (sizes row.now.items) }
{
    if before < u64::MAX {
        before - taken
    } else {
        row.bytes()
    }
}

/// The count of bytes once the batch was taken out of `row`: `before` counted those of both. Where
/// nothing is left in the row, no buffer of the batch is looked at.
pub(crate) fn bytes_without(batch: &Batch<'_>, before: u64, row: &Row<'_>) -> u64
    requires { before ≡ capped (sizes batch.now.items + sizes row.now.items) }
    ensures { result ≡ capped (sizes row.now.items) }
{
    if row.is_empty() {
        return 0;
    }
    bytes_left(before, batch.bytes(), row)
}
