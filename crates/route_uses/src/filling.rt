//! Caches with buffers of a part of a region.
ghost use Rattle.std.specs.Prelude.{◌≡◌};

use crate::offering::offer;
use digit_route::Cache;
use region_cut::Bump;
use slot_chain::{NoMemory, Room};
use std::alloc::Global;

/// The numbers of owners are below this.
const OWNERS: u16 = 4_096;

/// Offers a new buffer to the cache for each owner, as long as the chunk has slots. Says how many
/// it took.
pub fn fill<'r>(
    alloc: Global,
    bump: &mut Bump<'r>,
    owners: &[u16],
    cache: &mut Cache<'r>,
) -> Result<u64, NoMemory>
    ensures { cache.new ≡ record cache.old { items = cache.new.items } }
{
    let class = bump.class();
    let mut taken = 0u64;
    for owner in owners {
        let room = Room::new(alloc)?;
        if let Some(piece) = bump.next() {
            if *owner < OWNERS {
                if offer(cache, room.fill(piece, class, *owner)).is_none() {
                    taken = taken.saturating_add(1);
                }
            }
        }
    }
    Ok(taken)
}
