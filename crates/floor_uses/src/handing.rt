//! What a caller learns of a floor that was lent to it.
ghost use Rattle.std.specs.Prelude.{All};
ghost use Rattle.pool_desk.specs.Homes.{Unused};
ghost use Rattle.event_floor.specs.headline.Bytes.{HasWhatLay};
ghost use Rattle.event_floor.specs.headline.EndsKnown.{buffers_of, fresh_of};

use event_floor::laws::fresh_bytes_stay;
use event_floor::{Floor, Refusal, Reply, Request};
use slot_chain::NoMemory;
use std::alloc::Global;

/// Asks for all of these. Nothing need be known of how the floor was made: what it hands out of slots that were never
/// handed out before has the bytes that lay there.
pub fn hand_out(
    alloc: Global,
    floor: &mut Floor<'_>,
    requests: &[Request],
) -> Result<Vec<Result<Reply, Refusal>>, NoMemory>
    ensures { All (λ (u : Unused). All (HasWhatLay u) (buffers_of floor.new)) (fresh_of floor.old) }
{
    fresh_bytes_stay();
    floor.run(alloc, requests)
}
