//! What a desk sends on: its cache, batch by batch.
ghost use Rattle.std.specs.Prelude.{◌≡◌, ◌<◌, ◌↔◌, [], ◌++◌, All, IsTrue, IsPermutation, Some, None};
ghost use Rattle.std.specs.Prelude.{MatchOption, MatchResult};
ghost use Rattle.slot_chain.specs.Buffer.{Buffer};
ghost use Rattle.digit_route.specs.Digits.{common};
ghost use Rattle.digit_route.specs.Route.{GivesBucket, RouteFault};

use crate::{Desk, DeskPosting};
use digit_route::{Batch, Cache, Posting, Refused, RouteError};
use slot_chain::EmptyMagazine;
use std::alloc::Global;
use std::mem;

impl<'r> Desk<'r> {
    /// Why [`Desk::batch_for`] would refuse, or `None` where it would give a batch.
    pub fn fault_for(&self, t: u16) -> Option<RouteError>
        ensures { RouteFault self.now.digits self.now.number t self.now.cached result }
    {
        self.cache.fault_for(t)
    }

    /// Takes out of the cache all that goes to `t`: the buffers whose owners share more digits with
    /// `t` than this desk does. Takes no memory.
    pub fn batch_for(&mut self, t: u16) -> Result<Batch<'r>, RouteError>
        ensures same { self.new ≡ record self.old { cached = self.new.cached } }
        ensures value { MatchResult result
            (λ b. RouteFault self.old.digits self.old.number t self.old.cached None × (b.address ≡ t)
            × GivesBucket self.old.digits self.old.number self.old.cached b self.new.cached)
            (λ e. RouteFault self.old.digits self.old.number t self.old.cached (Some e) × (self.new ≡ self.old)) }
    {
        self.cache.take_bucket_for(t)
    }

    /// Takes out of the cache all that goes to `t`, where [`Desk::fault_for`] said that it has a
    /// batch. Takes no memory.
    pub fn take_for(&mut self, t: u16) -> Batch<'r>
        requires { RouteFault self.old.digits self.old.number t self.old.cached None }
        ensures same { self.new ≡ record self.old { cached = self.new.cached } }
        ensures address { result.address ≡ t }
        ensures gives { GivesBucket self.old.digits self.old.number self.old.cached result self.new.cached }
    {
        self.cache.take_for(t)
    }

    /// Takes out of the cache all that goes to some owner of a buffer in it, or says that it is
    /// empty. Takes no memory. To post all of the cache, [`Desk::posting`] takes fewer steps.
    pub fn next_batch(&mut self) -> Option<Batch<'r>>
        ensures same { self.new ≡ record self.old { cached = self.new.cached } }
        ensures value { MatchOption result ((self.old.cached ≡ []) × (self.new.cached ≡ []))
            (λ b. GivesBucket self.old.digits self.old.number self.old.cached b self.new.cached) }
    {
        self.cache.next_batch()
    }

    /// Takes out of the cache all that goes to some owner whose first digit isn't the desk's, or
    /// says that all that are left share it. So a cache is posted where it stands, without a
    /// [`Desk::posting`], as far as the first round goes. Takes no memory.
    pub fn next_of_first_round(&mut self) -> Option<Batch<'r>>
        ensures same { self.new ≡ record self.old { cached = self.new.cached } }
        ensures value { MatchOption result (self.new.cached ≡ self.old.cached)
            (λ b. GivesBucket self.old.digits self.old.number self.old.cached b self.new.cached) }
        ensures round { MatchOption result
            (All (λ (x : Buffer). 0 < common self.old.digits x.owner self.old.number) self.old.cached)
            (λ b. All (λ (x : Buffer). common self.old.digits x.owner self.old.number ≡ 0) b.items) }
    {
        self.cache.next_of_first_round()
    }

    /// Makes room for the pointers to others' buffers that will be freed here, as much as the batches
    /// had or wanted that were taken out of the cache: to be called after a post. What has no room is
    /// linked, which costs more where another thread takes it. For desks of one thread it gains
    /// nothing. Where memory is refused, there is less room.
    pub fn make_room(&mut self, alloc: Global)
        ensures { self.new ≡ self.old }
    {
        self.cache.make_room(alloc);
    }

    /// Takes the memory of an empty magazine for others' buffers that will be freed here, behind a batch
    /// that was posted to `t`: as much as it had goes back and forth, and none is taken anew
    /// ([`Desk::handle_and_empty`]). Takes constant time and no memory.
    pub fn reuse(&mut self, t: u16, empty: EmptyMagazine<'r>)
        ensures { self.new ≡ self.old }
    {
        self.cache.reuse(t, empty);
    }

    /// Takes back into the cache a batch of this desk that could not be posted. Takes no memory.
    pub fn refused(&mut self, batch: Batch<'r>)
        requires sender { batch.sender ≡ self.old.number }
        requires digits { batch.digits ≡ self.old.digits }
        ensures same { self.new ≡ record self.old { cached = self.new.cached } }
        ensures items { IsPermutation (self.old.cached ++ batch.entry.items) self.new.cached }
    {
        self.cache.put_back(batch);
    }

    /// Takes back into the cache all that was refused while it was posted. Takes no memory.
    #[inline(always)]
    pub fn take_back(&mut self, refused: Refused<'r>)
        requires number { refused.number ≡ self.old.number }
        requires digits { refused.digits ≡ self.old.digits }
        ensures same { self.new ≡ record self.old { cached = self.new.cached } }
        ensures items { IsPermutation (self.old.cached ++ refused.entry.items) self.new.cached }
    {
        self.cache.take_back(refused);
    }

    /// Whether nothing is cached, where [`Desk::next_of_first_round`] gave nothing. Takes constant time.
    pub fn is_posted(&self) -> bool
        requires { All (λ (x : Buffer). 0 < common self.now.digits x.owner self.now.number) self.now.cached }
        ensures { IsTrue result ↔ (self.now.cached ≡ []) }
    {
        self.cache.is_empty_behind_first_round()
    }

    /// Takes out all that is cached, to be posted round by round, and leaves an empty cache. What is
    /// refused comes back by [`Desk::take_back`]. Takes no memory.
    #[inline(never)]
    pub fn take_posting(&mut self) -> Posting<'r>
        ensures same { self.new ≡ record self.old { cached = [] } }
        ensures posting { let d = self.old in result ≡ record {
          number = d.number;
          digits = d.digits;
          limit = d.limit;
          round = 0;
          moves = 0;
          items = d.cached;
        } }
    {
        let _known = self.cache.number();
        let empty = Cache::new(self.cache.number(), self.cache.digits(), self.cache.limit());
        mem::replace(&mut self.cache, empty).posting()
    }

    /// Begins to post the cache, round by round. Takes no memory.
    pub fn posting(self) -> DeskPosting<'r>
        ensures { let d = self.entry in result ≡ record {
          worker = d.worker;
          home = d.home;
          drawn = d.drawn;
          posting = record {
            number = d.number;
            digits = d.digits;
            limit = d.limit;
            round = 0;
            moves = 0;
            items = d.cached;
          };
        } }
    {
        let Desk {
            worker,
            homes,
            cache,
            spares,
        } = self;
        DeskPosting {
            worker,
            homes,
            posting: cache.posting(),
            spares,
        }
    }
}
