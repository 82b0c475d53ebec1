//! Lists of buffers, linked through the boxes that they lie in.
ghost use Rattle.std.specs.Prelude.{◌≡◌, ◌≢◌, ◌<◌, ◌↔◌, [], ◌∷◌, ◌++◌, length, map, IsTrue, None};
ghost use Rattle.std.specs.Prelude.{MatchOption, MatchBool, OnOk, OnErr};
ghost use Rattle.slot_chain.specs.Buffer.{Buffer, ended_of};
ghost use Rattle.slot_chain.specs.Chains.{IsListed, buffers_from, buffers_of, is_list};
ghost use Rattle.slot_chain.specs.Counts.{capped, sizes};
ghost use Rattle.slot_chain.specs.Magazines.{AreFilled, packed_in};
ghost use Rattle.slot_chain.specs.Slots.{AddsSlots, slot_of};

use crate::buf::Buf;
use crate::error::NoMemory;
use crate::link::Link;
use crate::node::Node;
use crate::parcel::BufParcel;
use crate::walk::{Walk, add_slots, bytes_in};
use region_cut::Slot;
use region_cut::endings::Endings;
use std::fmt;
use std::marker::Model;

/// A list of buffers. In contracts a chain is that list; its last buffer is on top, where
/// [`Chain::push`] and [`Chain::pop`] work.
///
/// A chain is one pointer. No call takes memory, none can fail, and none changes or copies a
/// buffer. A chain may be dropped, with all its buffers, however long it is.
#[must_use]
pub struct Chain<'r> {
    pub(crate) top: Link<Node<'r>>,
}

impl<'r> Model for Chain<'r> {
    ghost use Rattle.std.specs.Prelude.{List};
    ghost use Rattle.slot_chain.specs.Buffer.{Buffer};

    ghost Value = { List Buffer };

    ghost use Rattle.slot_chain.specs.Chains.{buffers_of, is_list};

    ghost view = { λ a. buffers_of a.top };

    ghost invariant = { λ a. is_list a.top };
}

// A loop, so that a long chain takes no depth.
impl Drop for Chain<'_> {
    fn drop(mut self) {
        while !self.top.is_empty() {
            let (lease, below) = Box::into_inner(self.into_box()).into_parts();
            drop(lease);
            self = below.into_chain();
        }
        self.close();
    }
}

impl Default for Chain<'_> {
    ghost is_default = { λ c. c ≡ [] };

    fn default() -> Self {
        Chain::new()
    }
}

impl<'r> Chain<'r> {
    /// The empty chain. It takes no memory.
    pub fn new() -> Chain<'r>
        ensures { result ≡ [] }
    {
        Chain { top: Link::empty() }
    }

    /// Its top alone.
    #[inline]
    pub(crate) fn into_top(self) -> Link<Node<'r>>
        ensures list { buffers_of result ≡ self.entry }
        ensures listed { is_list result }
    {
        let Chain { top } = self;
        top
    }

    // The box on top, with all that is below it.
    #[inline]
    pub(crate) fn into_box(self) -> Box<Node<'r>>
        requires { 0 < length self }
        ensures list { buffers_from result.value ≡ self.entry }
        ensures listed { IsListed result.value }
    {
        let alloc = self.top.get().alloc;
        self.into_top().into_box(alloc)
    }

    // Lets an empty chain go.
    #[tactic(auto, using(crate::proofs::Tops::empty_is_none))]
    fn close(self)
        requires { self ≡ [] }
    {
        self.into_top().close();
    }

    /// Puts a buffer on top, which writes to its box. Takes constant time.
    pub fn push(&mut self, buf: Buf<'r>)
        ensures { self.new ≡ self.old ++ buf.entry ∷ [] }
    {
        let Buf { mut node } = buf;
        node.below.set(Chain {
            top: self.top.leave(),
        });
        self.top.set(Link::of(node));
    }

    /// Takes the buffer on top, which came last, or `None` where there is none. Takes constant
    /// time.
    #[tactic(auto, using(crate::proofs::Tops::empty_is_none))]
    pub fn pop(&mut self) -> Option<Buf<'r>>
        ensures { MatchOption result ((self.old ≡ []) × (self.new ≡ [])) (λ b. self.old ≡ self.new ++ b ∷ []) }
    {
        // It is moved out before it is looked at: the compiler sees then that nothing has to be written.
        let whole = Chain {
            top: self.top.leave(),
        };
        if whole.is_empty() {
            whole.close();
            return None;
        }
        let mut node = whole.into_box();
        self.top.set(node.below.leave().into_top());
        Some(Buf { node })
    }

    // Moves the top buffer, and says whether there was one.
    fn shift(&mut self, other: &mut Chain<'r>) -> bool
        ensures { MatchBool result
            ((b : Buffer) × (other.old ≡ other.new ++ b ∷ []) × (self.new ≡ self.old ++ b ∷ []))
            ((other.old ≡ []) × (other.new ≡ []) × (self.new ≡ self.old)) }
    {
        match other.pop() {
            None => false,
            Some(moved) => {
                self.push(moved);
                true
            }
        }
    }

    /// Puts all buffers of `other` on top, in their order, and leaves it empty.
    ///
    /// Takes time for the length of `other` alone, which is turned round, and back as its buffers
    /// are put on top: two moves for each. None of the buffers that are here already is looked at.
    #[tactic(auto, using(crate::proofs::Sums::reverse_push, crate::proofs::Sums::append_push))]
    pub fn append(&mut self, other: &mut Chain<'r>)
        ensures list { self.new ≡ self.old ++ other.old }
        ensures emptied { other.new ≡ [] }
    {
        let mut turned = Chain::new();
        while turned.shift(other) {}
        while self.shift(&mut turned) {}
    }

    /// The number of buffers, or the greatest `u64` where that is less. It is counted by a walk.
    pub fn len(&self) -> u64
        ensures { result ≡ capped (length self.now) }
    {
        let mut count = 0u64;
        let mut at = &self.top;
        while !at.is_empty() {
            let node = at.get();
            count = count.saturating_add(1);
            at = node.below.get();
        }
        count
    }

    /// The sum of the sizes of the buffers in bytes, each that of its class, or the greatest `u64`
    /// where that is less. It is counted by a walk.
    pub fn bytes_total(&self) -> u64
        ensures { result ≡ capped (sizes self.now) }
    {
        bytes_in(self.walk())
    }

    /// Whether there is no buffer. Takes constant time.
    #[tactic(auto, using(crate::proofs::Tops::empty_is_none))]
    pub fn is_empty(&self) -> bool
        ensures { IsTrue result ↔ (self.now ≡ []) }
    {
        self.top.is_empty()
    }

    /// Lets go all buffers: it is then known what each ends as. Takes a walk over them.
    pub fn end(self, endings: &mut Endings<'r>)
        ensures { endings.new ≡ record endings.old { known = map ended_of self.entry ++ endings.old.known } }
    {
        let mut chain = self;
        while let Some(buf) = chain.pop() {
            endings.close(buf.into_front());
        }
    }

    /// A walk over the buffers from the top, which only looks at them.
    pub fn walk(&self) -> Walk<'_, 'r>
        ensures { result ≡ self.now }
    {
        Walk::from(Default::default(), Default::default(), &self.top)
    }

    /// The same, then over what an array names, and then over what those arrays name that came as a
    /// whole.
    pub(crate) fn walk_behind<'a>(
        &'a self,
        whole: &'a [BufParcel<'r>],
        named: &'a [Buf<'r>],
    ) -> Walk<'a, 'r>
        requires { AreFilled whole.now }
        ensures { result ≡ (packed_in whole.now ++ named.now) ++ self.now }
    {
        Walk::from(whole, named, &self.top)
    }

    /// Adds the slot of each buffer to the end of `slots`, in no order. Where memory for that is
    /// refused, `slots` is as before. Takes a walk over the buffers.
    pub fn list_slots(&self, slots: &mut Vec<Slot>) -> Result<(), NoMemory>
        ensures ok { OnOk result (AddsSlots (map slot_of self.now) slots.old.items slots.new.items) }
        ensures err { OnErr result (slots.new.items ≡ slots.old.items) }
    {
        add_slots(self.walk(), slots)
    }
}

// The buffers are counted, by a walk, and not printed.
impl fmt::Debug for Chain<'_> {
    fn fmt<W: fmt::Write>(&self, f: &mut fmt::Formatter<W>) -> fmt::Result {
        write!(f, "Chain({} buffers)", self.len())
    }
}
