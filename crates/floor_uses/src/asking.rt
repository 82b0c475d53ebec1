//! A request that is repeated where there was no memory.
ghost use Rattle.event_floor.specs.headline.Headline.{Applies};

use event_floor::{Floor, Refusal, Reply, Request};
use std::alloc::Global;

/// Asks, and asks once more where there was no memory. Either way the floor made one step of the machine from what it
/// was before: a refused request leaves nothing behind.
pub fn ask(alloc: Global, floor: &mut Floor<'_>, request: Request) -> Result<Reply, Refusal>
    ensures { Applies floor.old request result floor.new }
{
    let answer = floor.apply(alloc, request);
    if answer == Err(Refusal::NoMemory) {
        return floor.apply(alloc, request);
    }
    answer
}
