//! A floor's whole life, after which its region holds what it held.
ghost use Rattle.std.specs.Prelude.{◌≡◌, ◌≤◌, ◌^◌, ◌++◌, ℕ, List, None, length, map, flat_map, All};
ghost use Rattle.std.specs.Borrow.{sem, LendsBothIf, Array, u8};
ghost use Rattle.std.specs.List.{Contains};
ghost use Rattle.region_cut.specs.Endings.{Ended, IsKnown, end_in};
ghost use Rattle.region_cut.specs.Laws.{StandsAt};
ghost use Rattle.region_cut.specs.Limits.{chunk_size};
ghost use Rattle.region_cut.specs.Parts.{AreNumbered, name_of, bytes_of};

use digit_route::Digits;
use event_floor::{Floor, Refusal, Reply, Request, end_parts};
use region_cut::Part;
use region_cut::endings::{Endings, cut_with_front};
use region_cut::laws::parts_make_the_whole;
use std::alloc::Global;

/// The bytes above which the cache of a desk is due.
const LIMIT: u64 = 4096;

/// The answers to all requests, where there was memory for the floor and for them.
pub type Answers = Option<Vec<Result<Reply, Refusal>>>;

/// What lives over a region: a floor of so many desks, whose numbers are read by these digits, and what is asked of it.
#[derive(Drop)]
pub struct Life {
    pub desks: u32,
    pub digits: Digits,
    pub requests: Vec<Request>,
}

// A floor over the parts lives and is ended, or there was no memory for it. Either way the parts are let go, and joined
// in order they end as they were.
fn parts_live<'r>(alloc: Global, parts: Vec<Part<'r>>, life: Life) -> (Answers, Endings<'r>)
    requires some { 1 ≤ life.desks }
    requires few { life.desks ≤ 2 ^ life.digits.bits }
    requires parts { AreNumbered parts.items }
    ensures known { All (IsKnown result.1.known) (map name_of parts.entry.items) }
    ensures whole { All (λ x. length (end_in result.1.known x) ≡ chunk_size) (map name_of parts.entry.items) }
    ensures bytes { (tail : List ℕ) → StandsAt (flat_map (end_in result.1.known) (map name_of parts.entry.items)) 0
        (flat_map bytes_of parts.entry.items ++ tail) }
{
    match Floor::over(alloc, parts, life.desks, life.digits, LIMIT) {
        Ok(floor) => {
            let mut floor = floor;
            let answers = floor.run(alloc, &life.requests).ok();
            (answers, floor.end())
        }
        Err(parts) => {
            let mut endings = Endings::new();
            end_parts(parts, &mut endings);
            endings.agree();
            (None, endings)
        }
    }
}

/// A floor of so many desks lives over the region, whatever is asked of it, and is ended. Then the region is let go,
/// and it is known that it ends as it began, byte by byte, also where there was no memory for the floor.
pub fn lives<'r>(alloc: Global, region: &'r mut [u8], life: Life) -> (Answers, Endings<'r>)
    requires some { 1 ≤ life.desks }
    requires few { life.desks ≤ 2 ^ life.digits.bits }
    ensures { Contains result.1.known (record { name = region.entry.ghost_name; bytes = region.old }) }
{
    parts_make_the_whole();
    let (parts, front) = cut_with_front(alloc, region);
    let Ok(parts) = parts else {
        let mut alone = Endings::new();
        alone.close(front);
        return (None, alone);
    };
    let (answers, mut endings) = parts_live(alloc, parts, life);
    endings.close(front);
    (answers, endings)
}

fn lived<'r>(region: &'r mut [u8], alloc: Global, life: Life) -> Endings<'r>
    requires some { 1 ≤ life.desks }
    requires few { life.desks ≤ 2 ^ life.digits.bits }
    ensures { Contains result.known (record { name = region.entry.ghost_name; bytes = region.old }) }
{
    let (_answers, endings) = lives(alloc, region, life);
    endings
}

fn ended<'r>(
    region: &'r mut [u8],
    alloc: Global,
    life: Life,
) -> Option<(&'r mut [u8], &'r mut [u8])>
    requires some { 1 ≤ life.desks }
    requires few { life.desks ≤ 2 ^ life.digits.bits }
    ensures* writes_back { sem 𝓛
        (LendsBothIf (Array u8 0) (Array u8 0) (Array u8 0) region.entry result ◌++◌ region.old) }
    ensures none { result ≡ None }
{
    let _endings = lived(region, alloc, life);
    None
}

/// The same, for a caller that goes on with its region: it holds what it held, byte by byte, whatever was asked of the
/// floor, and also where there was no memory for it.
pub fn leaves_as_it_was(alloc: Global, region: &mut [u8], life: Life)
    requires some { 1 ≤ life.desks }
    requires few { life.desks ≤ 2 ^ life.digits.bits }
    ensures { region.new ≡ region.old }
{
    match ended(region, alloc, life) {
        None => (),
        Some(_region) => (),
    }
}
