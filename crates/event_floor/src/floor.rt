//! The floor.
ghost use Rattle.std.specs.Prelude.{ℕ, List, [], ◌≡◌, ◌≤◌, ◌^◌, ◌++◌, length, map, flat_map, IfOk, IfErr, OnErr};
ghost use Rattle.std.specs.Prelude.{Err};
ghost use Rattle.region_cut.specs.Limits.{chunk_limit};
ghost use Rattle.region_cut.specs.Parts.{AreNumbered, name_of, bytes_of};
ghost use Rattle.digit_route.specs.Limits.{largest_limit};
ghost use Rattle.event_floor.specs.Floors.{desk_count};
ghost use Rattle.event_floor.specs.Steps.{Answers};
ghost use Rattle.event_floor.specs.headline.Bytes.{Holds, HoldsSome, KeepsBytes, EndsAsHeld};
ghost use Rattle.event_floor.specs.headline.Headline.{Applies, Headline, Shows};
ghost use Rattle.event_floor.specs.headline.EndsKnown.{EndsKnown};
ghost use Rattle.event_floor.specs.headline.Listing.{listing_of};
ghost use Rattle.event_floor.specs.headline.Memory.{LacksOnlyWhereItMay, MayLackMemory};
ghost use Rattle.event_floor.specs.headline.Names.{IsNamed};
ghost use Rattle.pool_machine.specs.declared.refusal.Refusal.TheVariants.{NoMemory as RefusedForMemory};
ghost use Rattle.pool_machine.specs.Listing.{Shown};
ghost use Rattle.pool_machine.specs.State.{opening as machine_opening};

use crate::lists::Lists;
use crate::{Refusal, Reply, Request};
use digit_route::Digits;
use region_cut::Part;
use region_cut::endings::Endings;
use region_cut::laws::{known_ends_stay, slices_lie_in_order, slots_lie_at_their_ranges};
use slot_chain::NoMemory;
use std::alloc::Global;
use std::fmt;
use std::marker::Model;

/// All desks of a pool, the chunks that none of them drew, the lent buffers, and the batches that are on their way.
#[derive(Drop)]
pub struct Floor<'r> {
    pub(crate) lists: Lists<'r>,
}

impl<'r> Model for Floor<'r> {
    ghost use Rattle.event_floor.specs.Floors.{FloorState};

    ghost Value = { FloorState };

    ghost use Rattle.event_floor.specs.headline.Bytes.{HoldsSome};
    ghost use Rattle.event_floor.specs.headline.Headline.{Shows};
    ghost use Rattle.event_floor.specs.headline.Names.{IsNamed};
    ghost use Rattle.event_floor.specs.headline.Whole.{IsWhole};

    ghost view = { λ f. f.lists };

    ghost invariant = { λ f. IsWhole f.lists × Shows f.lists × IsNamed f.lists × HoldsSome f.lists };
}

impl<'r> Floor<'r> {
    /// A floor of so many desks, all idle, over the parts that a cut gave of one region. The profile of `digits` says
    /// how many desks there may be, 64 or 4,096, which classes are claimed and how large a request may be. A desk's
    /// cache is due where it has more than `limit` bytes. After a want of memory the parts are given up.
    pub fn new(
        alloc: Global,
        parts: Vec<Part<'r>>,
        desks: u32,
        digits: Digits,
        limit: u64,
    ) -> Result<Floor<'r>, NoMemory>
        requires some { 1 ≤ desks }
        requires few { desks ≤ 2 ^ digits.bits }
        requires limit { limit ≤ largest_limit }
        requires parts { AreNumbered parts.items }
        ensures parts { IfOk result (λ f. f.parts ≡ map name_of parts.entry.items) }
        ensures desks { IfOk result (λ f. desk_count f ≡ desks) }
        ensures shows { IfOk result (λ f.
            Shown (listing_of f) (machine_opening desks (length parts.entry.items) digits limit) (λ slot. 0)) }
        ensures bytes { IfOk result (λ f.
            (tail : List ℕ) → Holds f (flat_map bytes_of parts.entry.items ++ tail)) }
    {
        match Floor::over(alloc, parts, desks, digits, limit) {
            Ok(floor) => Ok(floor),
            Err(_parts) => Err(NoMemory),
        }
    }

    /// The same, for a caller that wants to know what its region ends as: where there is no memory the parts come back.
    pub fn over(
        alloc: Global,
        parts: Vec<Part<'r>>,
        desks: u32,
        digits: Digits,
        limit: u64,
    ) -> Result<Floor<'r>, Vec<Part<'r>>>
        requires some { 1 ≤ desks }
        requires few { desks ≤ 2 ^ digits.bits }
        requires limit { limit ≤ largest_limit }
        requires parts { AreNumbered parts.items }
        ensures parts { IfOk result (λ f. f.parts ≡ map name_of parts.entry.items) }
        ensures desks { IfOk result (λ f. desk_count f ≡ desks) }
        ensures shows { IfOk result (λ f.
            Shown (listing_of f) (machine_opening desks (length parts.entry.items) digits limit) (λ slot. 0)) }
        ensures bytes { IfOk result (λ f.
            (tail : List ℕ) → Holds f (flat_map bytes_of parts.entry.items ++ tail)) }
        ensures back { IfErr result (λ back. back ≡ parts.entry) }
    {
        let _profile = digits.profile();
        let lists = Lists::new(alloc, parts, desks, digits, limit)?;
        lists.keeps();
        Ok(Floor { lists })
    }

    /// Does what is asked, or refuses and changes nothing. Only `Alloc` and `Send` take memory. `Send` goes over the
    /// buffers of the cache, and copies an inbox or the index of the batches that still have to be linked where that
    /// grows. `Take` goes over the buffers of its batch. `Link` looks the number up by its hash, and then takes a time
    /// that grows with the logarithm of how many batches wait in that inbox. All other requests take constant time.
    pub fn apply(&mut self, alloc: Global, request: Request) -> Result<Reply, Refusal>
        ensures shows { Shows self.old }
        ensures applies { Applies self.old request result self.new }
        ensures memory { result ≡ Err RefusedForMemory → MayLackMemory self.old request }
        ensures named { IsNamed self.new }
        ensures bytes { KeepsBytes self.old self.new }
        ensures unchanged { OnErr result (self.new ≡ self.old) }
        ensures desks { desk_count self.new ≡ desk_count self.old }
        ensures parts { self.new.parts ≡ self.old.parts }
    {
        self.keeps();
        self.step(alloc, request)
    }

    // The same, by the lists.
    fn step(&mut self, alloc: Global, request: Request) -> Result<Reply, Refusal>
        ensures answers { Answers self.old request result self.new }
        ensures applies { Applies self.old request result self.new }
        ensures named { IsNamed self.new }
        ensures unchanged { OnErr result (self.new ≡ self.old) }
        ensures desks { desk_count self.new ≡ desk_count self.old }
        ensures parts { self.new.parts ≡ self.old.parts }
    {
        let answer = self.lists.apply(alloc, request);
        self.lists.keeps();
        answer
    }

    /// Applies one request after the other, and gives the answers in order. The list of the answers is made first:
    /// where there is no memory for it, nothing is applied.
    pub fn run(
        &mut self,
        alloc: Global,
        requests: &[Request],
    ) -> Result<Vec<Result<Reply, Refusal>>, NoMemory>
        ensures shows { Shows self.old }
        ensures headline { IfOk result (λ answers. Headline self.old requests.now answers.items self.new) }
        ensures memory { IfOk result (λ answers. LacksOnlyWhereItMay self.old requests.now answers.items self.new) }
        ensures named { IsNamed self.new }
        ensures bytes { KeepsBytes self.old self.new }
        ensures unchanged { OnErr result (self.new ≡ self.old) }
        ensures desks { desk_count self.new ≡ desk_count self.old }
        ensures parts { self.new.parts ≡ self.old.parts }
    {
        self.keeps();
        let mut answers = Vec::with_capacity(alloc, requests.len())?;
        for request in requests {
            let answer = self.step(alloc, *request);
            answers.push_reserved(answer);
        }
        self.keeps();
        Ok(answers)
    }

    /// Ends the floor: all its buffers, cursors and parts are let go, and what is known of them afterwards tells what
    /// the region holds. Takes a walk over all of them, and no memory.
    pub fn end(self) -> Endings<'r>
        ensures known { EndsKnown self.entry result.known }
        ensures bytes { EndsAsHeld self.entry result.known }
        ensures closed { result.chunks ≡ [] }
    {
        let Floor { lists } = self;
        let mut endings = lists.end();
        endings.agree();
        endings.close_chunks();
        endings.agree();
        known_ends_stay();
        slices_lie_in_order();
        slots_lie_at_their_ranges();
        endings
    }

    // What its type keeps.
    pub(crate) fn keeps(&self)
        ensures few { self.now.chunks ≤ chunk_limit }
        ensures shows { Shows self.now }
        ensures named { IsNamed self.now }
        ensures held { HoldsSome self.now }
    {
        let _lists = &self.lists;
    }
}

// Its lists and their bytes are not printed.
impl fmt::Debug for Floor<'_> {
    fn fmt<W: fmt::Write>(&self, f: &mut fmt::Formatter<W>) -> fmt::Result {
        let desks = self.desk_count();
        let drawn = self.drawn_count();
        write!(f, "Floor({desks} desks, {drawn} chunks drawn)")
    }
}
