//! A row of magazines, one for each value of a digit.
ghost use Rattle.std.specs.Prelude.{◌≡◌, ◌≢◌, ℕ, ◌+◌, ◌^◌, ◌<◌, ◌≤◌, ◌↔◌, [], ◌∷◌, ◌++◌, length, map, slice_index_or};
ghost use Rattle.std.specs.Prelude.{slice_set, replicate, List, IsPermutation, MatchOption, IsTrue, OnOk, OnErr};
ghost use Rattle.std.specs.List.{flat_map};
ghost use Rattle.arrayvec.specs.ArrayVec.{array_vec_len};
ghost use Rattle.slot_chain.specs.Buffer.{Buffer, ended_of};
ghost use Rattle.slot_chain.specs.Counts.{capped, sizes};
ghost use Rattle.digit_route.specs.Limits.{width_limit};
ghost use Rattle.slot_chain.specs.Slots.{AddsSlots, slot_of};

use arrayvec::ArrayVec;
use region_cut::Slot;
use region_cut::endings::Endings;
use slot_chain::{Buf, BufParcel, EmptyMagazine, Magazine, NoMemory};
use std::alloc::Global;
use std::mem;

// The most values of a digit.
const MOST: usize = 64;

/// The magazine at `k` is for the value `k` of a digit.
pub(crate) type Magazines<'r> = ArrayVec<Magazine<'r>, MOST>;

/// `n` empty magazines.
pub(crate) fn empty_magazines<'r>(n: usize) -> Magazines<'r>
    requires { n ≤ 2 ^ width_limit }
    ensures { result.items ≡ replicate n [] }
{
    let mut magazines = ArrayVec::new();
    for i in 0..n {
        magazines.push(Magazine::new());
    }
    magazines
}

/// Puts a buffer on the magazine at `k`.
pub(crate) fn push_at<'r>(magazines: &mut Magazines<'r>, k: usize, item: Buf<'r>)
    requires { k < array_vec_len magazines.old }
    ensures { magazines.new.items ≡ slice_set magazines.old.items k
        (slice_index_or magazines.old.items k [] ++ item.entry ∷ []) }
{
    magazines[k].push(item);
}

/// Puts the buffers of a parcel on the magazine at `k`.
pub(crate) fn append_at<'r>(magazines: &mut Magazines<'r>, k: usize, parcel: BufParcel<'r>)
    requires { k < array_vec_len magazines.old }
    ensures { (list : List Buffer) × IsPermutation (slice_index_or magazines.old.items k [] ++ parcel.entry.items) list
        × (magazines.new.items ≡ slice_set magazines.old.items k list) }
{
    magazines[k].append(parcel);
}

/// Takes out the whole magazine at `k`.
pub(crate) fn take_at<'r>(magazines: &mut Magazines<'r>, k: usize) -> Magazine<'r>
    requires { k < array_vec_len magazines.old }
    ensures value { result ≡ slice_index_or magazines.old.items k [] }
    ensures after { magazines.new.items ≡ slice_set magazines.old.items k [] }
{
    magazines[k].take()
}

/// Makes room in each that wants some.
pub(crate) fn make_room(magazines: &mut Magazines<'_>, alloc: Global)
    ensures { magazines.new.items ≡ magazines.old.items }
{
    for k in 0..magazines.len() {
        magazines[k].make_room(alloc);
    }
}

/// Gives the magazine at `k` the memory of an empty one, where it wants some.
pub(crate) fn reuse_at<'r>(magazines: &mut Magazines<'r>, k: usize, empty: EmptyMagazine<'r>)
    requires { k < array_vec_len magazines.old }
    ensures { magazines.new.items ≡ magazines.old.items }
{
    magazines[k].reuse(empty);
}

/// Puts `magazine` in the place of the magazine at `k`, whose buffers are dropped.
pub(crate) fn set_at<'r>(magazines: &mut Magazines<'r>, k: usize, magazine: Magazine<'r>)
    requires { k < array_vec_len magazines.old }
    ensures { magazines.new.items ≡ slice_set magazines.old.items k magazine.entry }
{
    let _old = mem::replace(&mut magazines[k], magazine);
}

/// The place of a magazine that isn't empty, other than `own`.
pub(crate) fn find_other(magazines: &[Magazine<'_>], own: usize) -> Option<usize>
    ensures { MatchOption result
        ((k : ℕ) → k < length magazines.now → k ≢ own → slice_index_or magazines.now k [] ≡ [])
        (λ k. (k < length magazines.now) × (k ≢ own) × (slice_index_or magazines.now k [] ≢ [])) }
{
    for k in 0..magazines.len() {
        if k != own && !magazines[k].is_empty() {
            return Some(k);
        }
    }
    None
}

/// Whether each magazine is empty.
pub(crate) fn all_empty(magazines: &[Magazine<'_>]) -> bool
    ensures { IsTrue result ↔ ((k : ℕ) → k < length magazines.now → slice_index_or magazines.now k [] ≡ []) }
{
    magazines.iter().all(|magazine| magazine.is_empty())
}

/// How many buffers there are, or the greatest `u64`, found by a walk.
pub(crate) fn len(magazines: &[Magazine<'_>]) -> u64
    ensures { result ≡ capped (length (flat_map (λ x. x) magazines.now)) }
{
    let mut total = 0u64;
    for magazine in magazines {
        total = total.saturating_add(magazine.len());
    }
    total
}

/// The sum of the sizes in bytes, or the greatest `u64`, found by a walk.
pub(crate) fn bytes(magazines: &[Magazine<'_>]) -> u64
    ensures { result ≡ capped (sizes (flat_map (λ x. x) magazines.now)) }
{
    let mut total = 0u64;
    for magazine in magazines {
        total = total.saturating_add(magazine.bytes_total());
    }
    total
}

/// Adds the slots of all buffers, or none.
pub(crate) fn list_slots(magazines: &[Magazine<'_>], slots: &mut Vec<Slot>) -> Result<(), NoMemory>
    ensures ok { OnOk result
        (AddsSlots (map slot_of (flat_map (λ x. x) magazines.now)) slots.old.items slots.new.items) }
    ensures err { OnErr result (slots.new.items ≡ slots.old.items) }
{
    let start = slots.len();
    for magazine in magazines {
        if let Err(refused) = magazine.list_slots(slots) {
            slots.truncate(start);
            return Err(refused);
        }
    }
    Ok(())
}

/// Lets go all buffers.
pub(crate) fn end_all<'r>(magazines: Magazines<'r>, endings: &mut Endings<'r>)
    ensures { endings.new ≡ record endings.old {
      known = map ended_of (flat_map (λ x. x) magazines.entry.items) ++ endings.old.known;
    } }
{
    let mut magazines = magazines;
    while let Some(magazine) = magazines.pop() {
        magazine.end(endings);
    }
}
