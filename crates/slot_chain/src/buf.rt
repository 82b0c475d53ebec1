//! One buffer.
ghost use Rattle.std.specs.Prelude.{◌≡◌, ◌<◌, ◌*◌, ◌^◌, ◌↔◌, IsTrue, length};
ghost use Rattle.std.specs.Ptr.{block_ptr};
ghost use Rattle.region_cut.specs.Classes.{size_of};

use crate::node::Node;
use crate::walk::Tag;
use region_cut::endings::Front;
use region_cut::{Class, Slot};
use std::convert::AsSlice;
use std::marker::Model;
use std::{fmt, slice};

/// A buffer: a slot of a region that is borrowed for `'r`, with the slice of bytes that lies there.
/// It moves as one pointer.
///
/// Nobody else can reach the slice while the buffer lives. A buffer may be dropped: its slot is
/// then lost until the region's borrow ends.
///
/// Its user fills it from the front ([`Buf::extend_from_slice`], `write!`, [`Buf::read_from`]), and it
/// knows how much of it is filled ([`Buf::len`], [`Buf::data`]), wherever it goes. Where it is made or
/// given out, nothing is filled.
///
/// Contracts see it as a `Buffer`. Two buffers are the same where slot, class, owner, `forwards`, how
/// much is filled and the bytes now agree, and the name under which the bytes are known that will be
/// there when the region's borrow ends.
#[must_use]
#[derive(Drop)]
pub struct Buf<'r> {
    pub(crate) node: Box<Node<'r>>,
}

impl<'r> Model for Buf<'r> {
    ghost use Rattle.slot_chain.specs.Buffer.{Buffer};

    ghost Value = { Buffer };

    ghost use Rattle.slot_chain.specs.Chains.{buffer_of, IsAlone};

    ghost view = { λ a. buffer_of a.node.value };

    ghost invariant = { λ a. IsAlone a.node.value };
}

impl<'r> Buf<'r> {
    ghost use Rattle.std.specs.Borrow.{sem};
    ghost use Rattle.std.specs.Prelude.{[]};
    ghost use Rattle.region_cut.specs.Fronts.{whole_of, settled_of, lent_of, rest_of};
    ghost use Rattle.slot_chain.specs.Buffer.{owner_limit};
    ghost use Rattle.slot_chain.specs.Loans.{LendsBytes};

    /// The place of the buffer in its region.
    pub fn slot(&self) -> Slot
        ensures { result ≡ self.now.slot }
    {
        self.node.slot
    }

    /// The size class of its chunk.
    pub fn class(&self) -> Class
        ensures { result ≡ self.now.class }
    {
        self.node.class
    }

    /// The number of the allocator to which it goes back.
    pub fn owner(&self) -> u16
        ensures value { result ≡ self.now.owner }
        ensures in_range { result < owner_limit }
    {
        self.node.owner
    }

    /// How often it was passed on by allocators that don't own it, since it was freed. Whoever
    /// moves the buffer keeps this count by [`Buf::set_forwards`].
    pub fn forwards(&self) -> u32
        ensures { result ≡ self.now.forwards }
    {
        self.node.forwards
    }

    /// Sets the count of [`Buf::forwards`], and changes nothing else. Where the count stays as it
    /// is, the buffer's box is not written to, so that its cache line may stay where it is.
    pub fn set_forwards(&mut self, forwards: u32)
        ensures { self.new ≡ record self.old { forwards = forwards } }
    {
        if self.node.forwards != forwards {
            self.node.forwards = forwards;
        }
    }

    /// Nothing counts as filled any more, and the count of [`Buf::forwards`] is 0: how a buffer is freed.
    /// Where both hold already, the buffer's box is not written to.
    #[inline]
    pub fn reset(&mut self)
        ensures { self.new ≡ record self.old { forwards = 0; filled = 0 } }
    {
        // As the box has them: the count of forwards above, how much is filled below. So it is one look.
        let both = self.node.forwards as u64 * 4_294_967_296 + self.node.filled as u64;
        if both != 0 {
            self.node.filled = 0;
            self.node.forwards = 0;
        }
    }

    /// The bytes of the slot, as many as its class has.
    pub fn bytes(&self) -> &[u8]
        ensures value { result.now ≡ self.now.bytes.now }
        ensures size { length result.now ≡ size_of self.now.class }
    {
        self.node.lease.bytes()
    }

    // The place and the length of the bytes.
    fn words(&mut self) -> (*mut u8, usize)
        ensures { (self.new ≡ self.old) × (result.0 ≡ block_ptr self.old.bytes.ref_ptr.0 self.old.bytes.ref_ptr.1)
            × (result.1 ≡ length self.old.bytes.now) × (length self.old.bytes.now * 1 < 2 ^ 63)
            × (length self.old.bytes.now ≡ size_of self.old.class) }
    {
        self.node.lease.words()
    }

    /// The bytes of the slot, to be written. When the loan ends, the buffer is the same but for
    /// what was written.
    pub fn bytes_mut(&mut self) -> &mut [u8]
        ensures* writes_back { sem 𝓛 (LendsBytes self.entry result) }
        ensures value { result.now ≡ self.old.bytes.now }
        ensures size { length result.now ≡ size_of self.old.class }
    {
        let (at, len) = self.words();
        unsafe { slice::from_raw_parts_mut(at, len) }
    }

    /// What a walk shows of it.
    pub(crate) fn tag(&self) -> Tag
        ensures slot { result.slot ≡ self.now.slot }
        ensures class { result.class ≡ self.now.class }
        ensures owner { result.owner ≡ self.now.owner }
    {
        self.node.tag()
    }

    /// Gives up the box, and gives the bytes back, of which nothing is lent, to be let go.
    pub fn into_front(self) -> Front<'r>
        ensures whole { whole_of result ≡ self.entry.bytes.ghost_name }
        ensures settled { settled_of result ≡ [] }
        ensures lent { lent_of result ≡ [] }
        ensures rest { rest_of result ≡ self.entry.bytes.now }
    {
        let Buf { node } = self;
        let lease = Box::into_inner(node).into_lease();
        Front::new(lease.into_bytes())
    }
}

impl AsSlice<u8> for Buf<'_> {
    ghost items = { λ b. b.bytes.now };

    fn as_slice(&self) -> &[u8] {
        self.bytes()
    }
}

// The bytes are not printed.
impl fmt::Debug for Buf<'_> {
    fn fmt<W: fmt::Write>(&self, f: &mut fmt::Formatter<W>) -> fmt::Result {
        let node = &self.node;
        write!(
            f,
            "Buf({} of class {}, owner {})",
            node.slot,
            node.class.number(),
            node.owner
        )
    }
}
