//! The homes of the classes, in order.
ghost use Rattle.std.specs.Prelude.{◌≡◌, ◌≢◌, ℕ, ◌<◌, ◌≤◌, ◌↔◌, [], ◌∷◌, ◌++◌, All, IsTrue, IsPermutation};
ghost use Rattle.std.specs.Prelude.{MatchResult, length, map, slice_index_or, slice_set};
ghost use Rattle.arrayvec.specs.ArrayVec.{array_vec_len};
ghost use Rattle.slot_chain.specs.Buffer.{Buffer, ended_of, owner_limit};
ghost use Rattle.region_cut.specs.Classes.{class_count, slots_of};
ghost use Rattle.pool_desk.specs.Homes.{AtHome, HomeState, IsAtHome, GivesOne, IsRefused, Draws, kept_in, slot_at};
ghost use Rattle.pool_desk.specs.Homes.{unused_from};
ghost use Rattle.pool_desk.specs.Homes.AtHome.{Kept};
ghost use Rattle.pool_desk.specs.HomesState.{empties, home_at, slots_of_home, drawn_at};
ghost use Rattle.std.specs.List.{flat_map};
ghost use Rattle.slot_chain.specs.Counts.{capped};
ghost use Rattle.pool_desk.specs.Slots.{AddsOn};

use crate::home::Home;
use arrayvec::ArrayVec;
use region_cut::endings::Endings;
use region_cut::{Class, SIZES, Slot};
use slot_chain::NoMemory;

// There is a home for each class, also for those that the profile doesn't use.
const CLASSES: usize = SIZES.len();

pub(crate) type ByClass<'r> = ArrayVec<Home<'r>, CLASSES>;

/// Empty homes of all classes.
#[tactic(auto, using(crate::proofs::ByClassLaws::empties_length), unfolding(crate::specs::HomesState::empties))]
pub(crate) fn empty_homes<'r>(owner: u16) -> ByClass<'r>
    requires { owner < owner_limit }
    ensures { result.items ≡ empties owner class_count }
{
    let mut homes = ArrayVec::new();
    for k in 0..CLASSES as u32 {
        let Some(class) = Class::new(k) else {
            unreachable!();
        };
        homes.push(Home::new(owner, class));
    }
    homes
}

/// The number of slots, or the greatest u64.
pub(crate) fn count_all(homes: &[Home<'_>]) -> u64
    ensures { result ≡ capped (length (flat_map slots_of_home homes.now)) }
{
    let mut total = 0u64;
    for home in homes {
        total = total.saturating_add(home.count());
    }
    total
}

/// Adds the slots. Where memory is refused some of them are added.
pub(crate) fn add_all(homes: &[Home<'_>], slots: &mut Vec<Slot>) -> Result<(), NoMemory>
    ensures { AddsOn result (map slot_at (flat_map slots_of_home homes.now)) slots.old.items slots.new.items }
{
    for home in homes {
        home.add_slots(slots)?;
    }
    Ok(())
}

/// Lets go the buffers and the cursors.
pub(crate) fn end_all<'r>(homes: ByClass<'r>, endings: &mut Endings<'r>)
    ensures { endings.new ≡ record {
      known = map ended_of (kept_in (flat_map slots_of_home homes.entry.items)) ++ endings.old.known;
      chunks = flat_map drawn_at homes.entry.items ++ endings.old.chunks;
    } }
{
    let mut homes = homes;
    while let Some(home) = homes.pop() {
        home.end(endings);
    }
}
