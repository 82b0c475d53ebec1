//! From a region to a chain of its buffers, and back.
ghost use Rattle.std.specs.Prelude.{◌≡◌, ◌+◌, ◌*◌, ◌/◌, ◌<◌, length, OnOk, IfOk};
ghost use Rattle.region_cut.specs.Classes.{slots_of};
ghost use Rattle.region_cut.specs.Limits.{chunk_size};
ghost use Rattle.slot_chain.specs.Buffer.{owner_limit};

use region_cut::{Class, CutError, Part, cut};
use slot_chain::{Chain, NoMemory, Room};
use std::alloc::Global;

/// Puts a buffer for each slot of `part` on top of `chain`, in order. After [`NoMemory`] those that
/// were made are on it.
pub fn fill_part<'r>(
    alloc: Global,
    part: Part<'r>,
    class: Class,
    owner: u16,
    chain: &mut Chain<'r>,
) -> Result<(), NoMemory>
    requires { owner < owner_limit }
    ensures { OnOk result (length chain.new ≡ length chain.old + slots_of class) }
{
    let mut bump = part.bump(class);
    loop {
        let room = Room::new(alloc)?;
        match bump.next() {
            None => return Ok(()),
            Some(piece) => chain.push(room.fill(piece, class, owner)),
        }
    }
}

/// Cuts a region, and puts a buffer for each of its slots on one chain, in order.
/// [`CutError::NoMemory`] also says that a room was refused.
#[tactic(auto, using(crate::proofs::Counting::parts_length))]
pub fn fill_region<'r>(
    alloc: Global,
    region: &'r mut [u8],
    class: Class,
    owner: u16,
) -> Result<Chain<'r>, CutError>
    requires { owner < owner_limit }
    ensures { IfOk result (λ chain. length chain ≡ length region.old / chunk_size * slots_of class) }
{
    let mut chain = Chain::new();
    for part in cut(alloc, region)? {
        let Ok(()) = fill_part(alloc, part, class, owner, &mut chain) else {
            return Err(CutError::NoMemory);
        };
    }
    Ok(chain)
}
