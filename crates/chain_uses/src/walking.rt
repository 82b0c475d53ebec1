//! Walks over a chain, which stays as it is.
ghost use Rattle.std.specs.Prelude.{◌≡◌, ◌==◌, IfOk, map, count_by};
ghost use Rattle.std.proofs.Common.{reverse};
ghost use Rattle.slot_chain.specs.Buffer.{Buffer};
ghost use Rattle.slot_chain.specs.Counts.{capped};

use region_cut::Slot;
use slot_chain::{Chain, NoMemory};
use std::alloc::Global;

/// How many buffers of the chain go back to `owner`, or the greatest `u64` where that is less.
pub fn count_owned(chain: &Chain<'_>, owner: u16) -> u64
    ensures { result ≡ capped (count_by (λ b. b.owner == owner) chain.now) }
{
    let mut count = 0u64;
    for tag in chain.walk() {
        if tag.owner == owner {
            count = count.saturating_add(1);
        }
    }
    count
}

/// The slots of the chain, from the top.
pub fn list_slots(alloc: Global, chain: &Chain<'_>) -> Result<Vec<Slot>, NoMemory>
    ensures { IfOk result (λ slots. slots.items ≡ reverse (map (λ b. b.slot) chain.now)) }
{
    let mut slots = Vec::new(alloc);
    for tag in chain.walk() {
        slots.push(tag.slot)?;
    }
    Ok(slots)
}
