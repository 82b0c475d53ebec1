//! A list for another thread.
ghost use Rattle.std.specs.Prelude.{◌≡◌, []};
ghost use Rattle.std.proofs.Common.{reverse};

use slot_chain::{Chain, Magazine};
use std::alloc::Global;

// An empty magazine, with room for a few pointers where memory is given.
fn roomy<'r>(alloc: Global) -> Magazine<'r>
    ensures { result ≡ [] }
{
    let mut magazine = Magazine::new();
    let _empty = magazine.take();
    magazine.make_room(alloc);
    magazine
}

/// The buffers of a chain, the other way round, in a list for another thread. Where memory is
/// refused, all of them are linked.
#[tactic(auto, using(slot_chain::proofs::Sums::reverse_push, slot_chain::proofs::Sums::append_push))]
pub fn turned<'r>(alloc: Global, chain: Chain<'r>) -> Magazine<'r>
    ensures { result ≡ reverse chain.entry }
{
    let mut chain = chain;
    let mut turned = roomy(alloc);
    while let Some(buf) = chain.pop() {
        turned.push(buf);
    }
    turned
}
