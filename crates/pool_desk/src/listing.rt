//! Slots that were never handed out are listed.
ghost use Rattle.region_cut.specs.Bumps.{left_of};
ghost use Rattle.pool_desk.specs.Slots.{AddsOn, places};

use region_cut::{Bump, Slot};
use slot_chain::NoMemory;

/// Adds the slots that a cursor has still to give. Where memory is refused some of them are added.
pub(crate) fn add_unused(bump: &Bump<'_>, slots: &mut Vec<Slot>) -> Result<(), NoMemory>
    ensures { AddsOn result (places bump.now.chunk (left_of bump.now) bump.now.next) slots.old.items slots.new.items }
{
    let chunk = bump.chunk();
    let next = bump.given();
    let end = next + bump.left() as u16;
    for index in next..end {
        slots.push(Slot { chunk, index })?;
    }
    Ok(())
}
