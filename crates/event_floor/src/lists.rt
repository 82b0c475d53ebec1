//! The lists of a floor.
ghost use Rattle.std.specs.Prelude.{◌≡◌, ◌≤◌, ◌*◌, ◌^◌, [], replicate, None, IfOk, IfErr, OnErr};
ghost use Rattle.region_cut.specs.Limits.{chunk_limit};
ghost use Rattle.slot_chain.specs.Buffer.{owner_limit};
ghost use Rattle.digit_route.specs.Limits.{largest_limit};
ghost use Rattle.region_cut.specs.Parts.{AreNumbered};
ghost use Rattle.event_floor.specs.Floors.{desk_count, opening, IsFloor};
ghost use Rattle.event_floor.specs.Lent.{chunk_places};
ghost use Rattle.event_floor.specs.Desks.{new_desks};
ghost use Rattle.event_floor.specs.Steps.{Does, Refuses};

use crate::any_desk::{AnyDesk, idle_desks};
use crate::chunks::Chunks;
use crate::inboxes::Inboxes;
use crate::lent::Lent;
use crate::{Refusal, Reply, Request};
use digit_route::Digits;
use region_cut::Part;
use slot_chain::NoMemory;
use std::alloc::Global;
use std::marker::Model;

/// All desks of a pool, the chunks that none of them drew, the lent buffers, and the batches that are on their way.
#[derive(Drop)]
pub(crate) struct Lists<'r> {
    pub(crate) digits: Digits,
    pub(crate) limit: u64,
    pub(crate) desks: Vec<AnyDesk<'r>>,
    pub(crate) chunks: Chunks<'r>,
    pub(crate) lent: Lent<'r>,
    pub(crate) inboxes: Inboxes<'r>,
    pub(crate) next: u64,
}

impl<'r> Model for Lists<'r> {
    ghost use Rattle.std.specs.Prelude.{length};
    ghost use Rattle.event_floor.specs.Floors.{FloorState, IsFloor};

    ghost Value = { FloorState };

    ghost view = { λ f. record {
      digits = f.digits;
      limit = f.limit;
      chunks = length f.chunks.parts;
      parts = f.chunks.parts;
      drawn = f.chunks.drawn;
      undrawn = f.chunks.undrawn;
      desks = f.desks.items;
      lent = f.lent;
      inboxes = f.inboxes;
      next = f.next;
    } };

    ghost invariant = { λ f. IsFloor f.digits f.limit (length f.chunks.parts) f.desks.items f.lent f.inboxes f.next };
}

// The lists of a floor that hold nothing yet.
#[derive(Drop)]
struct EmptyLists<'r> {
    desks: Vec<AnyDesk<'r>>,
    lent: Lent<'r>,
    inboxes: Inboxes<'r>,
}

impl<'r> EmptyLists<'r> {
    // Those of so many chunks and desks.
    fn new(
        alloc: Global,
        chunks: usize,
        desks: u32,
        digits: Digits,
        limit: u64,
    ) -> Result<EmptyLists<'r>, NoMemory>
        requires chunks { chunks ≤ chunk_limit }
        requires few { desks ≤ 2 ^ digits.bits }
        requires limit { limit ≤ largest_limit }
        ensures desks { IfOk result (λ empty. empty.desks.items ≡ new_desks digits limit desks) }
        ensures lent { IfOk result (λ empty. empty.lent ≡ replicate (chunk_places * chunks) None) }
        ensures inboxes { IfOk result (λ empty. empty.inboxes ≡ replicate desks []) }
        ensures fewer { desks ≤ owner_limit }
    {
        let _profile = digits.profile();
        Ok(EmptyLists {
            desks: idle_desks(alloc, desks, digits, limit)?,
            lent: Lent::new(alloc, chunks)?,
            inboxes: Inboxes::new(alloc, desks)?,
        })
    }
}

impl<'r> Lists<'r> {
    /// The lists of a new floor. Where there is no memory the parts come back.
    pub(crate) fn new(
        alloc: Global,
        parts: Vec<Part<'r>>,
        desks: u32,
        digits: Digits,
        limit: u64,
    ) -> Result<Lists<'r>, Vec<Part<'r>>>
        requires some { 1 ≤ desks }
        requires few { desks ≤ 2 ^ digits.bits }
        requires limit { limit ≤ largest_limit }
        requires parts { AreNumbered parts.items }
        ensures opening { IfOk result (λ f. f ≡ opening desks parts.entry.items digits limit) }
        ensures back { IfErr result (λ back. back ≡ parts.entry) }
    {
        let Ok(empty) = EmptyLists::new(alloc, parts.len(), desks, digits, limit) else {
            return Err(parts);
        };
        let chunks = Chunks::new(alloc, parts)?;
        Ok(Lists {
            digits,
            limit,
            desks: empty.desks,
            chunks,
            lent: empty.lent,
            inboxes: empty.inboxes,
            next: 1,
        })
    }

    /// Does what is asked, or refuses and changes nothing.
    pub(crate) fn apply(&mut self, alloc: Global, request: Request) -> Result<Reply, Refusal>
        ensures does { IfOk result (λ reply. Does self.old request reply self.new) }
        ensures refuses { IfErr result (λ refusal. Refuses self.old request refusal) }
        ensures unchanged { OnErr result (self.new ≡ self.old) }
        ensures desks { desk_count self.new ≡ desk_count self.old }
    {
        match request {
            Request::Adopt(a, worker) => self.adopt(a, worker),
            Request::Retire(a) => self.retire(a),
            Request::Claim(a, class) => self.claim(a, class),
            Request::Alloc(a, size) => self.alloc(alloc, a, size),
            Request::Free(a, (chunk, index)) => self.free(a, chunk, index),
            Request::Send(a, t) => self.send(a, t),
            Request::Link(number) => self.link(number),
            Request::Take(b) => self.take(b),
        }
    }

    /// What its type keeps.
    pub(crate) fn keeps(&self)
        ensures { IsFloor self.now.digits self.now.limit self.now.chunks self.now.desks self.now.lent self.now.inboxes
            self.now.next }
    {
        let _desks = &self.desks;
    }
}
