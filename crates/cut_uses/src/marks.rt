//! A caller that learns what its region holds, once all that was cut off it is given back.
ghost use Rattle.std.specs.Prelude.{◌≡◌, ◌≤◌, ◌++◌, [], length, map, slice_set, None};
ghost use Rattle.std.specs.List.{flat_map};
ghost use Rattle.std.specs.Borrow.{sem, LendsBothIf, Array, u8};
ghost use Rattle.region_cut.specs.Fronts.{whole_of, settled_of, lent_of, rest_of, end_of};
ghost use Rattle.region_cut.specs.Limits.{chunk_size};
ghost use Rattle.region_cut.specs.Parts.{name_of, bytes_of};

use region_cut::endings::{Front, cut_with_front};
use region_cut::laws::parts_make_the_whole;
use region_cut::{CHUNK, Class, Part};
use std::alloc::Global;

// Writes `x` into the first byte of the second slot of 64 bytes, and gives back both slots.
fn mark_part<'r>(part: Part<'r>, x: u8) -> Front<'r>
    ensures whole { whole_of result ≡ name_of part.entry }
    ensures lent { lent_of result ≡ [] }
    ensures end { end_of result ≡ slice_set (bytes_of part.entry) 64 x }
{
    let Some(class) = Class::new(3) else {
        unreachable!();
    };
    let mut bump = part.bump(class);
    let Some(first) = bump.next() else {
        unreachable!();
    };
    let Some(second) = bump.next() else {
        unreachable!();
    };
    let (_slot, bytes) = second.into_parts();
    bytes[0] = x;
    let mut chunk = bump.into_front();
    chunk.settle(first.into_front());
    chunk.settle(Front::new(bytes));
    chunk
}

/// Gives back parts of which nothing was lent, in their order.
pub fn settle_all<'r>(mut front: Front<'r>, parts: Vec<Part<'r>>) -> Front<'r>
    requires { lent_of front ≡ map name_of parts.items }
    ensures whole { whole_of result ≡ whole_of front.entry }
    ensures lent { lent_of result ≡ [] }
    ensures settled { settled_of result ≡ settled_of front.entry ++ flat_map bytes_of parts.entry.items }
    ensures rest { rest_of result ≡ rest_of front.entry }
{
    for part in parts {
        front.settle(part.into_front());
    }
    front
}

// Cuts the region, marks its first chunk and gives back all parts. Where there is no memory for the
// list of the parts, the region is whole, and the byte is written there.
fn marked<'r>(region: &'r mut [u8], alloc: Global, x: u8) -> Front<'r>
    requires { chunk_size ≤ length region.old }
    ensures whole { whole_of result ≡ region.entry.ghost_name }
    ensures lent { lent_of result ≡ [] }
    ensures end { end_of result ≡ slice_set region.old 64 x }
{
    let (parts, mut front) = cut_with_front(alloc, region);
    if let Ok(mut parts) = parts {
        parts_make_the_whole();
        let first = parts.remove(0);
        front.settle(mark_part(first, x));
        return settle_all(front, parts);
    }
    let whole = front.take(CHUNK);
    whole[64] = x;
    front.settle(Front::new(whole));
    front
}

fn ended<'r>(region: &'r mut [u8], alloc: Global, x: u8) -> Option<(&'r mut [u8], &'r mut [u8])>
    requires { chunk_size ≤ length region.old }
    ensures* writes_back { sem 𝓛
        (LendsBothIf (Array u8 0) (Array u8 0) (Array u8 0) region.entry result ◌++◌ (slice_set region.old 64 x)) }
    ensures none { result ≡ None }
{
    let _front = marked(region, alloc, x);
    None
}

/// Cuts a region of at least one chunk, cuts the first chunk into slots of 64 bytes and writes `x`
/// into the first byte of slot 0.1. The region then holds `x` at 64, and what it held elsewhere.
pub fn mark(alloc: Global, region: &mut [u8], x: u8)
    requires { chunk_size ≤ length region.old }
    ensures { region.new ≡ slice_set region.old 64 x }
{
    match ended(region, alloc, x) {
        None => (),
        Some(_region) => (),
    }
}

/// The byte 64 of a local array, after it was marked there.
pub fn marked_byte(alloc: Global, x: u8) -> u8
    ensures { result ≡ x }
{
    let mut bytes = [0u8; 5000];
    mark(alloc, &mut bytes, x);
    bytes[64]
}
