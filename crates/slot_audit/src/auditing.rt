//! The audit: whether all slots of the drawn chunks are there, each of them once.
ghost use Rattle.std.specs.Prelude.{◌≡◌, length, IfOk, IfErr};
ghost use Rattle.slot_audit.specs.Audit.{FindsEachSlot, IsFault, IsStranger, IsNowhere};
ghost use Rattle.slot_audit.specs.Limits.{place_limit};
ghost use Rattle.slot_audit.specs.Tallies.{IsTally};
ghost use Rattle.slot_audit.specs.declared.fault.Fault.TheVariants.{NoMemory};

use crate::strangers::least_stranger;
use crate::tallies::{PLACES, least_with, tally, zeros};
use crate::{Drawn, Fault};
use region_cut::Slot;
use std::alloc::Global;

/// What the tally says of slots that are all of drawn chunks.
fn judge(drawn: &Drawn, found: &[Slot], tallied: &[u8]) -> Result<(), Fault>
    requires length { length tallied.now ≡ place_limit }
    requires tally { IsTally drawn.now found.now tallied.now }
    requires strangers { IsNowhere (IsStranger drawn.now found.now) }
    ensures ok { IfOk result (λ _. FindsEachSlot drawn.now found.now) }
    ensures err { IfErr result (λ fault. IsFault drawn.now found.now fault) }
{
    match least_with(drawn, tallied, 2) {
        Some(slot) => Err(Fault::Doubled(slot)),
        None => match least_with(drawn, tallied, 0) {
            Some(slot) => Err(Fault::Missing(slot)),
            None => Ok(()),
        },
    }
}

/// Whether each slot of each drawn chunk is found once, and nothing else is found.
///
/// `found` lists, in any order, all slots that a pool holds somewhere: at home, lent, in caches, in
/// batches under way. A slot that was lost is missing from it, one that is held twice is doubled.
/// Where several things are wrong, strangers come first, then doubled slots, then missing ones, and
/// of each kind the least slot is named, by chunk and then index.
///
/// It takes time in the number of slots found, and a table of 262,144 bytes; it answers
/// [`Fault::NoMemory`] only where that table was refused.
///
/// ```
/// let mut drawn = Drawn::new(alloc)?;
/// drawn.note(0, class);
/// let found = [Slot { chunk: 0, index: 1 }, Slot { chunk: 0, index: 0 }];
/// match audit(alloc, &found, &drawn) {
///     Ok(()) => println!(rt; "each slot is there once")?,
///     Err(Fault::Missing(slot)) => println!(rt; "{slot} was lost")?,
///     Err(fault) => println!(rt; "{fault}")?,
/// }
/// ```
pub fn audit(alloc: Global, found: &[Slot], drawn: &Drawn) -> Result<(), Fault>
    ensures ok { IfOk result (λ _. FindsEachSlot drawn.now found.now) }
    ensures err { IfErr result (λ fault. IsFault drawn.now found.now fault) }
    ensures strangers { IfErr result (λ fault. fault ≡ NoMemory → IsNowhere (IsStranger drawn.now found.now)) }
{
    if let Some(slot) = least_stranger(drawn, found) {
        return Err(Fault::Stranger(slot));
    }
    match zeros(alloc, PLACES) {
        Ok(table) => {
            let mut table = table;
            let tallied = table.as_mut_slice();
            tally(drawn, found, tallied);
            judge(drawn, found, tallied)
        }
        Err(_) => Err(Fault::NoMemory),
    }
}
