//! What a box of a chain holds.
ghost use Rattle.std.specs.Prelude.{◌≡◌, []};
ghost use Rattle.slot_chain.specs.Chains.{held};

use crate::below::Below;
use crate::lease::Lease;
use crate::walk::Tag;
use region_cut::{Class, Slot};
use std::alloc::Global;

// One buffer, and the chain below it. A node belongs to its buffer, also while that is in no chain: then
// nothing is below.
#[cycle(chain)]
pub(crate) struct Node<'r> {
    // How many bytes its user has filled, and how often the buffer was passed on. They lie in one word, so
    // that one look finds both to be 0, as they are where a buffer comes back to who lent it.
    pub(crate) filled: u32,
    pub(crate) forwards: u32,
    pub(crate) slot: Slot,
    pub(crate) class: Class,
    pub(crate) owner: u16,
    pub(crate) lease: Lease<'r>,
    // Written where the buffer is linked alone. What stands before is read by each thread that has the
    // buffer, and other boxes lie in the same cache line. So what comes from another thread is named by
    // an array, and only what its own thread frees is linked.
    pub(crate) below: Below<'r>,
    // by which the box goes back. It takes no bytes
    pub(crate) alloc: Global,
}

impl<'r> Node<'r> {
    /// What a walk shows of it.
    pub(crate) fn tag(&self) -> Tag
        ensures slot { result.slot ≡ self.now.slot }
        ensures class { result.class ≡ self.now.class }
        ensures owner { result.owner ≡ self.now.owner }
    {
        Tag {
            slot: self.slot,
            class: self.class,
            owner: self.owner,
        }
    }

    /// Takes it apart: the bytes of the buffer, and the chain below it.
    #[inline]
    pub(crate) fn into_parts(self) -> (Lease<'r>, Below<'r>)
        ensures lease { result.0 ≡ self.entry.lease }
        ensures below { result.1 ≡ self.entry.below }
    {
        let Node {
            filled: _,
            forwards: _,
            slot: _,
            class: _,
            owner: _,
            lease,
            below,
            alloc: _,
        } = self;
        (lease, below)
    }

    /// Takes it apart where nothing is below it: the bytes of the buffer.
    #[inline]
    pub(crate) fn into_lease(self) -> Lease<'r>
        requires below { held self.below ≡ [] }
        ensures { result ≡ self.entry.lease }
    {
        let (lease, below) = self.into_parts();
        below.close();
        lease
    }
}

// By hand, so that it is proved here once, and not again in each crate that lets a buffer go. What is
// below is not looked at: it may have been moved out. A chain that is let go takes its nodes apart.
impl Drop for Node<'_> {
    fn drop(self) {
        let (lease, below) = self.into_parts();
        drop(lease);
        below.forget();
    }
}
