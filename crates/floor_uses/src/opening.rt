//! A floor over a region.
ghost use Rattle.std.specs.Prelude.{◌≤◌, ◌^◌, ◌/◌, length, IfSome};
ghost use Rattle.region_cut.specs.Limits.{chunk_size};
ghost use Rattle.digit_route.specs.Limits.{largest_limit};
ghost use Rattle.event_floor.specs.headline.Listing.{listing_of};
ghost use Rattle.pool_machine.specs.Listing.{Shown};
ghost use Rattle.pool_machine.specs.State.{opening};

use digit_route::Digits;
use event_floor::Floor;
use region_cut::cut;
use region_cut::laws::parts_make_the_whole;
use std::alloc::Global;

/// A floor of so many desks over all chunks of the region, each desk's cache with this limit in bytes. None where the
/// region has too many chunks, or there was no memory.
pub fn open<'r>(
    alloc: Global,
    region: &'r mut [u8],
    desks: u32,
    digits: Digits,
    limit: u64,
) -> Option<Floor<'r>>
    requires some { 1 ≤ desks }
    requires few { desks ≤ 2 ^ digits.bits }
    requires limit { limit ≤ largest_limit }
    ensures { IfSome result (λ floor.
        Shown (listing_of floor) (opening desks (length region.old / chunk_size) digits limit) (λ slot. 0)) }
{
    parts_make_the_whole();
    let Ok(parts) = cut(alloc, region) else {
        return None;
    };
    match Floor::new(alloc, parts, desks, digits, limit) {
        Ok(floor) => Some(floor),
        Err(_) => None,
    }
}
