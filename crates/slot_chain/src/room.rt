//! The room that a buffer takes in memory.
ghost use Rattle.std.specs.Prelude.{◌≡◌, ◌<◌, length};
ghost use Rattle.region_cut.specs.Classes.{size_of};
ghost use Rattle.region_cut.specs.Pieces.{place_of, slice_of};
ghost use Rattle.slot_chain.specs.Buffer.{owner_limit};

use crate::below::Below;
use crate::buf::Buf;
use crate::error::NoMemory;
use crate::lease::Lease;
use crate::node::Node;
use region_cut::{Class, Piece, Slot};
use std::alloc::Global;
use std::fmt;
use std::marker::Model;

/// Room for one buffer: the box that the buffer and its link in a chain will lie in. It holds no
/// bytes of a region, and contracts see nothing in it.
#[derive(Drop)]
pub struct Room<'r> {
    node: Box<Node<'r>>,
}

impl<'r> Model for Room<'r> {
    ghost use Rattle.std.specs.Prelude.{◌≡◌, []};
    ghost use Rattle.slot_chain.specs.Chains.{held};

    ghost Value = { Unit {0} };

    ghost view = { λ _. tt };

    ghost invariant = { λ a. held a.node.value.below ≡ [] };
}

impl<'r> Room<'r> {
    /// Makes an empty room: a box of 40 bytes. [`NoMemory`] is answered only where the allocator
    /// refused it.
    pub fn new(alloc: Global) -> Result<Room<'r>, NoMemory> {
        let node = Node {
            filled: 0,
            forwards: 0,
            slot: Slot { chunk: 0, index: 0 },
            class: Class::FIRST,
            owner: 0,
            lease: Lease::new(Default::default()),
            below: Below::new(),
            alloc,
        };
        Ok(Room {
            node: Box::new(alloc, node)?,
        })
    }

    /// Makes a buffer of a piece of a region. It lies in this room, so no memory is taken and
    /// nothing can fail.
    ///
    /// The piece has to be as long as a slot of `class`. `owner` is the number of the allocator to
    /// which the buffer goes back, of at most 12 bits. The bytes stay as they are.
    pub fn fill(self, piece: Piece<'r>, class: Class, owner: u16) -> Buf<'r>
        requires size { length (slice_of piece).now ≡ size_of class }
        requires owner { owner < owner_limit }
        ensures slot { result.slot ≡ place_of piece.entry }
        ensures class { result.class ≡ class }
        ensures owner { result.owner ≡ owner }
        ensures forwards { result.forwards ≡ 0 }
        ensures filled { result.filled ≡ 0 }
        ensures bytes { result.bytes ≡ slice_of piece.entry }
    {
        let Room { mut node } = self;
        let (slot, bytes) = piece.into_parts();
        node.slot = slot;
        node.class = class;
        node.owner = owner;
        node.forwards = 0;
        node.filled = 0;
        node.lease = Lease::new(bytes);
        Buf { node }
    }
}

impl fmt::Debug for Room<'_> {
    fn fmt<W: fmt::Write>(&self, f: &mut fmt::Formatter<W>) -> fmt::Result {
        f.write_str("Room")
    }
}
