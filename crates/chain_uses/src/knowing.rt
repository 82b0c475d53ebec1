//! A caller that writes through a buffer and knows its region, byte by byte.
ghost use Rattle.std.specs.Prelude.{◌≡◌, ◌≤◌, ◌++◌, [], length, slice_set, None};
ghost use Rattle.std.specs.Borrow.{sem, LendsBothIf, Array, u8};
ghost use Rattle.region_cut.specs.Fronts.{whole_of, settled_of, lent_of, rest_of, end_of};
ghost use Rattle.region_cut.specs.Limits.{chunk_size};
ghost use Rattle.region_cut.specs.Parts.{name_of, bytes_of};

use crate::writing::mark;
use cut_uses::settle_all;
use region_cut::endings::{Front, cut_with_front};
use region_cut::laws::parts_make_the_whole;
use region_cut::{CHUNK, Class, Part};
use slot_chain::Room;
use std::alloc::Global;

// Makes a buffer of the part's first slot, writes its first byte, and gives it back.
fn mark_part<'r>(part: Part<'r>, room: Room<'r>, byte: u8) -> Front<'r>
    ensures whole { whole_of result ≡ name_of part.entry }
    ensures lent { lent_of result ≡ [] }
    ensures end { end_of result ≡ slice_set (bytes_of part.entry) 0 byte }
{
    let mut bump = part.bump(Class::FIRST);
    let Some(piece) = bump.next() else {
        unreachable!();
    };
    let mut buf = room.fill(piece, Class::FIRST, 0);
    mark(&mut buf, byte);
    let mut chunk = bump.into_front();
    chunk.settle(buf.into_front());
    chunk
}

// Writes the first byte of a region of which nothing is lent.
fn written<'r>(mut front: Front<'r>, byte: u8) -> Front<'r>
    requires long { chunk_size ≤ length (rest_of front) }
    requires settled { settled_of front ≡ [] }
    requires lent { lent_of front ≡ [] }
    ensures whole { whole_of result ≡ whole_of front.entry }
    ensures lent { lent_of result ≡ [] }
    ensures end { end_of result ≡ slice_set (rest_of front.entry) 0 byte }
{
    let first = front.take(CHUNK);
    first[0] = byte;
    front.settle(Front::new(first));
    front
}

// Cuts the region, marks its first slot through a buffer and gives back all parts. Where there is
// no memory for the list of the parts, the byte is written in the region itself.
fn marked<'r>(region: &'r mut [u8], alloc: Global, room: Room<'r>, byte: u8) -> Front<'r>
    requires { chunk_size ≤ length region.old }
    ensures whole { whole_of result ≡ region.entry.ghost_name }
    ensures lent { lent_of result ≡ [] }
    ensures end { end_of result ≡ slice_set region.old 0 byte }
{
    let (parts, mut front) = cut_with_front(alloc, region);
    let Ok(mut parts) = parts else {
        return written(front, byte);
    };
    parts_make_the_whole();
    let first = parts.remove(0);
    front.settle(mark_part(first, room, byte));
    settle_all(front, parts)
}

// The same, where there may be no memory for the buffer either.
fn known<'r>(region: &'r mut [u8], alloc: Global, byte: u8) -> Front<'r>
    requires { chunk_size ≤ length region.old }
    ensures whole { whole_of result ≡ region.entry.ghost_name }
    ensures lent { lent_of result ≡ [] }
    ensures end { end_of result ≡ slice_set region.old 0 byte }
{
    match Room::new(alloc) {
        Ok(room) => marked(region, alloc, room, byte),
        Err(_) => written(Front::new(region), byte),
    }
}

fn ended<'r>(region: &'r mut [u8], alloc: Global, byte: u8) -> Option<(&'r mut [u8], &'r mut [u8])>
    requires { chunk_size ≤ length region.old }
    ensures* writes_back { sem 𝓛
        (LendsBothIf (Array u8 0) (Array u8 0) (Array u8 0) region.entry result ◌++◌ (slice_set region.old 0 byte)) }
    ensures none { result ≡ None }
{
    let _front = known(region, alloc, byte);
    None
}

/// Cuts a region of at least one chunk, makes a buffer of its first slot, and writes `byte` into the
/// buffer's first byte. The region then begins with `byte`, and holds elsewhere what it held. Where
/// memory is refused, the byte is written into the region itself: the clause is the same in both
/// cases, and does not tell them apart.
pub fn mark_first(alloc: Global, region: &mut [u8], byte: u8)
    requires { chunk_size ≤ length region.old }
    ensures { region.new ≡ slice_set region.old 0 byte }
{
    match ended(region, alloc, byte) {
        None => (),
        Some(_region) => (),
    }
}
