//! A caller that lets go what it cut off a region in another order than it was cut.
ghost use Rattle.std.specs.Prelude.{◌≡◌, ◌≤◌, ◌++◌, length, slice_set, None};
ghost use Rattle.std.specs.List.{Contains};
ghost use Rattle.std.specs.Borrow.{sem, LendsBothIf, Array, u8};
ghost use Rattle.region_cut.specs.Endings.{Ended};

use region_cut::endings::{Endings, Front};

// Cuts two slices of 4 bytes off the region, writes `x` into the first byte of the second, and lets
// go the second before the first.
fn noted<'r>(region: &'r mut [u8], x: u8) -> Endings<'r>
    requires { 8 ≤ length region.old }
    ensures { Contains result.known (record { name = region.entry.ghost_name; bytes = slice_set region.old 4 x }) }
{
    let mut front = Front::new(region);
    let first = front.take(4);
    let second = front.take(4);
    second[0] = x;
    let mut endings = Endings::new();
    endings.close(Front::new(second));
    endings.close(Front::new(first));
    endings.agree();
    endings.close(front);
    endings
}

fn ended<'r>(region: &'r mut [u8], x: u8) -> Option<(&'r mut [u8], &'r mut [u8])>
    requires { 8 ≤ length region.old }
    ensures* writes_back { sem 𝓛
        (LendsBothIf (Array u8 0) (Array u8 0) (Array u8 0) region.entry result ◌++◌ (slice_set region.old 4 x)) }
    ensures none { result ≡ None }
{
    let _endings = noted(region, x);
    None
}

/// Cuts two slices of 4 bytes off a region, writes `x` into the first byte of the second, and lets
/// go all of them, the second first. The region then holds `x` at 4, and what it held elsewhere.
pub fn mark_in_any_order(region: &mut [u8], x: u8)
    requires { 8 ≤ length region.old }
    ensures { region.new ≡ slice_set region.old 4 x }
{
    match ended(region, x) {
        None => (),
        Some(_region) => (),
    }
}
