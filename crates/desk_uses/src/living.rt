//! A desk's whole life over a region of one chunk, after which it is known what the region holds.
ghost use Rattle.std.specs.Prelude.{◌≡◌, ◌↔◌, ◌≤◌, ⊤, [], All, Bool, IsTrue, None, length, take};
ghost use Rattle.std.specs.Borrow.{sem, LendsSo, Array, u8};
ghost use Rattle.std.specs.List.{Contains};
ghost use Rattle.region_cut.specs.Limits.{chunk_size};
ghost use Rattle.region_cut.specs.Parts.{name_of, bytes_of};
ghost use Rattle.desk_uses.specs.Used.{IsUsed, filled};

use crate::callers::fill;
use digit_route::Digits;
use pool_desk::{Desk, IdleDesk};
use region_cut::endings::{Endings, cut_with_front};
use region_cut::laws::parts_make_the_whole;
use region_cut::{Class, Part};
use std::alloc::Global;

// A new desk draws the chunk, and lends a slot of 16 bytes, which is filled and comes home. Tells
// whether there was memory for its buffer.
fn used<'r>(alloc: Global, part: Part<'r>, byte: u8) -> (bool, Desk<'r>)
    ensures used { IsUsed result.0 byte part.entry result.1 }
    ensures cached { result.1.cached ≡ [] }
{
    let Some(digits) = Digits::new(2) else {
        unreachable!();
    };
    let mut desk = IdleDesk::new(0, digits, 0).adopt(0);
    let Ok(()) = desk.claim(part, Class::FIRST) else {
        unreachable!();
    };
    let Ok(mut buf) = desk.alloc(alloc, 16) else {
        return (false, desk);
    };
    fill(&mut buf, byte);
    let _ = desk.free(buf);
    (true, desk)
}

// The desk is ended. It is then known what the chunk ends as.
fn chunk_lives<'r>(alloc: Global, part: Part<'r>, byte: u8) -> (bool, Endings<'r>)
    ensures { Contains result.1.known
        (record { name = name_of part.entry; bytes = filled result.0 byte (bytes_of part.entry) }) }
{
    let (is_filled, desk) = used(alloc, part, byte);
    let mut endings = Endings::new();
    desk.end(&mut endings);
    endings.agree();
    endings.close_chunks();
    (is_filled, endings)
}

/// Cuts a region of one chunk. A desk draws it, lends a slot of 16 bytes, which is filled with `byte`,
/// takes it home and is ended. Then the region is let go, and it is known that it ends with these 16
/// bytes in front, and is else as it was. Where memory was refused, all of it is. Tells whether there
/// was memory.
pub fn lives<'r>(alloc: Global, region: &'r mut [u8], byte: u8) -> (bool, Endings<'r>)
    requires { length region.old ≡ chunk_size }
    ensures { Contains result.1.known
        (record { name = region.entry.ghost_name; bytes = filled result.0 byte region.old }) }
{
    parts_make_the_whole();
    let (parts, front) = cut_with_front(alloc, region);
    let Ok(mut parts) = parts else {
        let mut alone = Endings::new();
        alone.close(front);
        return (false, alone);
    };
    let Some(part) = parts.pop() else {
        unreachable!();
    };
    let (is_filled, mut endings) = chunk_lives(alloc, part, byte);
    endings.agree();
    endings.close(front);
    (is_filled, endings)
}

fn lived<'r>(region: &'r mut [u8], alloc: Global, byte: u8) -> Endings<'r>
    requires { length region.old ≡ chunk_size }
    ensures { (is_filled : Bool) × Contains result.known
        (record { name = region.entry.ghost_name; bytes = filled is_filled byte region.old }) }
{
    let (_is_filled, endings) = lives(alloc, region, byte);
    endings
}

fn ended<'r>(region: &'r mut [u8], alloc: Global, byte: u8) -> Option<&'r mut u8>
    requires { length region.old ≡ chunk_size }
    ensures* writes_back { sem 𝓛 (LendsSo (Array u8 0) u8 region.entry result (λ _ _. ⊤)
        (λ new. (is_filled : Bool) × (new ≡ filled is_filled byte region.old))) }
    ensures none { result ≡ None }
{
    let _endings = lived(region, alloc, byte);
    None
}

// Whether each of the first 16 bytes is this one.
fn begins_with(bytes: &[u8], byte: u8) -> bool
    requires { 16 ≤ length bytes.now }
    ensures { IsTrue result ↔ All (λ b. b ≡ byte) (take 16 bytes.now) }
{
    bytes[..16].iter().all(|b| *b == byte)
}

// The region is filled in front, or is as it was.
fn filled_or_not(region: &mut [u8], alloc: Global, byte: u8)
    requires { length region.old ≡ chunk_size }
    ensures { (is_filled : Bool) × (region.new ≡ filled is_filled byte region.old) }
{
    match ended(region, alloc, byte) {
        None => (),
        Some(_byte) => (),
    }
}

/// A desk lives over the region as in [`lives`], for a caller that goes on with its region and knows it
/// byte by byte: the 16 bytes in front are `byte`, and the others are as they were; or all are as they
/// were, which is so where memory was refused. Tells which, by a look at the front.
pub fn fills_front(alloc: Global, region: &mut [u8], byte: u8) -> bool
    requires { length region.old ≡ chunk_size }
    ensures { region.new ≡ filled result byte region.old }
{
    filled_or_not(region, alloc, byte);
    begins_with(region, byte)
}
