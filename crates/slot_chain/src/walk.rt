//! Walks over lists of buffers that only look.
ghost use Rattle.std.specs.Prelude.{◌≡◌, [], ◌∷◌, ◌++◌, map, MatchOption, OnOk, OnErr};
ghost use Rattle.slot_chain.specs.Chains.{buffer_of, buffers_of, is_list};
ghost use Rattle.slot_chain.specs.Counts.{capped, sizes};
ghost use Rattle.slot_chain.specs.Magazines.{AreFilled, packed_in};
ghost use Rattle.slot_chain.specs.Slots.{AddsSlots, slot_of};

use crate::buf::Buf;
use crate::error::NoMemory;
use crate::link::Link;
use crate::node::Node;
use crate::parcel::BufParcel;
use region_cut::{Class, Slot};
use std::fmt;
use std::marker::Model;

/// What a walk shows of a buffer.
#[derive(Clone, Copy, Debug, PartialEq, Eq)]
pub struct Tag {
    /// Its place in the region.
    pub slot: Slot,
    /// Its size class.
    pub class: Class,
    /// The number of the allocator to which it goes back.
    pub owner: u16,
}

/// A walk over a chain from its top, or over a magazine from its end. In contracts it is the list of
/// the buffers that are still to be shown; the next one is the last of them.
#[derive(Drop)]
pub struct Walk<'a, 'r> {
    // parcels that came as a whole: shown last
    whole: &'a [BufParcel<'r>],
    // what an array names: shown before them
    named: &'a [Buf<'r>],
    // the top of the chain that is still to be shown
    at: &'a Link<Node<'r>>,
}

impl<'a, 'r> Model for Walk<'a, 'r> {
    ghost use Rattle.std.specs.Prelude.{List, ◌++◌};
    ghost use Rattle.slot_chain.specs.Buffer.{Buffer};

    ghost Value = { List Buffer };

    ghost use Rattle.slot_chain.specs.Chains.{buffers_of, is_list};
    ghost use Rattle.slot_chain.specs.Magazines.{packed_in, AreFilled};

    ghost view = { λ w. (packed_in w.whole.now ++ w.named.now) ++ buffers_of w.at.now };

    ghost invariant = { λ w. AreFilled w.whole.now × is_list w.at.now };
}

impl<'a, 'r> Walk<'a, 'r> {
    /// A walk over the list of that top, then over what an array names, and then over those parcels that
    /// came as a whole.
    pub(crate) fn from(
        whole: &'a [BufParcel<'r>],
        named: &'a [Buf<'r>],
        at: &'a Link<Node<'r>>,
    ) -> Walk<'a, 'r>
        requires filled { AreFilled whole.now }
        requires listed { is_list at.now }
        ensures { result ≡ (packed_in whole.now ++ named.now) ++ buffers_of at.now }
    {
        Walk { whole, named, at }
    }
}

impl<'a, 'r> Iterator for Walk<'a, 'r> {
    type Item = Tag;

    ghost use Rattle.std.specs.Iterator.{item_count};
    ghost use Rattle.slot_chain.specs.Walks.{ShowsNext};

    ghost next_gives = { ShowsNext };

    ghost remaining = { item_count (λ buffers. buffers) };

    fn next(&mut self) -> Option<Tag> {
        if self.at.is_empty() {
            let (last, named, whole) = split_named(self.whole, self.named)?;
            *self = Walk::from(whole, named, self.at);
            return Some(last.tag());
        }
        let node = self.at.get();
        *self = Walk::from(self.whole, self.named, node.below.get());
        Some(node.tag())
    }
}

// The last buffer that an array names, or else that of the parcels that came as a whole, and what is left of them.
fn split_named<'a, 'r>(
    whole: &'a [BufParcel<'r>],
    named: &'a [Buf<'r>],
) -> Option<(&'a Buf<'r>, &'a [Buf<'r>], &'a [BufParcel<'r>])>
    requires { AreFilled whole.now }
    ensures { MatchOption result (packed_in whole.now ++ named.now ≡ [])
        (λ s. AreFilled s.2.now
        × (packed_in whole.now ++ named.now ≡ (packed_in s.2.now ++ s.1.now) ++ s.0.now ∷ [])) }
{
    match named.split_last() {
        Some((last, rest)) => Some((last, rest, whole)),
        None => split_parcels(whole),
    }
}

// The last buffer of the parcels, and what is left of them.
#[tactic(auto, using(crate::proofs::Filled::last_filled))]
fn split_parcels<'a, 'r>(
    whole: &'a [BufParcel<'r>],
) -> Option<(&'a Buf<'r>, &'a [Buf<'r>], &'a [BufParcel<'r>])>
    requires { AreFilled whole.now }
    ensures { MatchOption result (packed_in whole.now ≡ [])
        (λ s. AreFilled s.2.now × (packed_in whole.now ≡ (packed_in s.2.now ++ s.1.now) ++ s.0.now ∷ [])) }
{
    let (parcel, rest) = whole.split_last()?;
    let (last, named) = parcel.buffers().split_last()?;
    Some((last, named, rest))
}

/// The sum of the sizes of what a walk shows in bytes, each that of its class, or the greatest `u64`
/// where that is less.
#[tactic(auto, using(crate::proofs::Sums::sizes_push))]
pub(crate) fn bytes_in(walk: Walk<'_, '_>) -> u64
    ensures { result ≡ capped (sizes walk.entry) }
{
    let mut walk = walk;
    let mut total = 0u64;
    while let Some(tag) = walk.next() {
        total = total.saturating_add(tag.class.size() as u64);
    }
    total
}

/// Adds the slot of each buffer that a walk shows to the end of `slots`. Where memory for that is
/// refused, `slots` is as before.
pub(crate) fn add_slots(walk: Walk<'_, '_>, slots: &mut Vec<Slot>) -> Result<(), NoMemory>
    ensures ok { OnOk result (AddsSlots (map slot_of walk.entry) slots.old.items slots.new.items) }
    ensures err { OnErr result (slots.new.items ≡ slots.old.items) }
{
    let start = slots.len();
    for tag in walk {
        if slots.push(tag.slot).is_err() {
            slots.truncate(start);
            return Err(NoMemory);
        }
    }
    Ok(())
}

// The buffers are not printed.
impl fmt::Debug for Walk<'_, '_> {
    fn fmt<W: fmt::Write>(&self, f: &mut fmt::Formatter<W>) -> fmt::Result {
        f.write_str("Walk")
    }
}
