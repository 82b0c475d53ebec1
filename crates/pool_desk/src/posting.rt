//! A desk that posts its cache.
ghost use Rattle.std.specs.Prelude.{◌≡◌, ◌<◌, ◌≤◌, ◌^◌, [], ◌++◌, All, IfSome, MatchOption, IsPermutation};
ghost use Rattle.slot_chain.specs.Buffer.{Buffer};
ghost use Rattle.digit_route.specs.Digits.{common};
ghost use Rattle.digit_route.specs.States.{all_moves};
ghost use Rattle.digit_route.specs.Route.{GivesBucket};

use crate::desk::Desk;
use crate::homes::Homes;
use crate::spares::Spares;
use digit_route::{Batch, Digits, Posting};
use std::fmt;
use std::marker::Model;

/// A desk whose cache is being posted, round by round. [`DeskPosting::end`] or
/// [`DeskPosting::refused`] gives the desk back.
#[must_use]
#[derive(Drop)]
pub struct DeskPosting<'r> {
    pub(crate) worker: u32,
    pub(crate) homes: Homes<'r>,
    pub(crate) posting: Posting<'r>,
    pub(crate) spares: Spares<'r>,
}

impl<'r> Model for DeskPosting<'r> {
    ghost use Rattle.std.specs.Prelude.{◌≡◌};
    ghost use Rattle.pool_desk.specs.Desks.{DeskPostingState};

    ghost Value = { DeskPostingState };

    ghost view = { λ d. record {
      worker = d.worker;
      home = d.homes.slots;
      drawn = d.homes.drawn;
      posting = d.posting;
    } };

    ghost invariant = { λ d. d.homes.owner ≡ d.posting.number };
}

impl<'r> DeskPosting<'r> {
    /// The desk's number.
    pub fn number(&self) -> u16
        ensures { result ≡ self.now.posting.number }
    {
        self.posting.number()
    }

    /// How the numbers of desks are read.
    pub fn digits(&self) -> Digits
        ensures { result ≡ self.now.posting.digits }
    {
        self.posting.digits()
    }

    /// Takes out all that goes to some owner of a buffer that is left, or says that nothing is
    /// left. Takes no memory.
    pub fn next_batch(&mut self) -> Option<Batch<'r>>
        ensures same { self.new ≡ record self.old {
          posting =
              record self.old.posting {
                round = self.new.posting.round;
                moves = self.new.posting.moves;
                items = self.new.posting.items;
              };
        } }
        ensures value { MatchOption result ((self.old.posting.items ≡ []) × (self.new.posting.items ≡ []))
            (λ b. let p = self.old.posting in GivesBucket p.digits p.number p.items b self.new.posting.items) }
        // rounds come in order: the buffers given share just as many digits with the desk as the
        // round's number, those that are left no fewer
        ensures here { let p = self.old.posting in IfSome result (λ b.
            All (λ (x : Buffer). common p.digits x.owner p.number ≡ self.new.posting.round) b.items) }
        ensures left { let p = self.old.posting in
            All (λ (x : Buffer). self.new.posting.round ≤ common p.digits x.owner p.number) self.new.posting.items }
        ensures later { self.old.posting.round ≤ self.new.posting.round }
        ensures counted { all_moves self.old.posting < 2 ^ 64
            → all_moves self.new.posting ≡ all_moves self.old.posting }
    {
        self.posting.next_batch()
    }

    /// The desk, with what is left in its cache. Takes no memory.
    pub fn end(self) -> Desk<'r>
        ensures same { let d = self.entry in let p = d.posting in
            result ≡ record {
              number = p.number;
              digits = p.digits;
              limit = p.limit;
              worker = d.worker;
              home = d.home;
              drawn = d.drawn;
              cached = result.cached;
            } }
        ensures items { IsPermutation self.entry.posting.items result.cached }
    {
        let DeskPosting {
            worker,
            homes,
            posting,
            spares,
        } = self;
        let cache = posting.end();
        Desk {
            worker,
            homes,
            cache,
            spares,
        }
    }

    /// The desk, with what is left and a batch of this desk that could not be posted in its cache.
    /// Takes no memory.
    pub fn refused(self, batch: Batch<'r>) -> Desk<'r>
        requires sender { batch.sender ≡ self.posting.number }
        requires digits { batch.digits ≡ self.posting.digits }
        ensures same { let d = self.entry in let p = d.posting in
            result ≡ record {
              number = p.number;
              digits = p.digits;
              limit = p.limit;
              worker = d.worker;
              home = d.home;
              drawn = d.drawn;
              cached = result.cached;
            } }
        ensures items { IsPermutation (self.entry.posting.items ++ batch.entry.items) result.cached }
    {
        let DeskPosting {
            worker,
            homes,
            posting,
            spares,
        } = self;
        let cache = posting.put_back(batch);
        Desk {
            worker,
            homes,
            cache,
            spares,
        }
    }
}

// The buffers are not printed.
impl fmt::Debug for DeskPosting<'_> {
    fn fmt<W: fmt::Write>(&self, f: &mut fmt::Formatter<W>) -> fmt::Result {
        write!(f, "DeskPosting(held by {})", self.worker)
    }
}
