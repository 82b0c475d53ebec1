//! The posting of a cache, in rounds.
ghost use Rattle.std.specs.Prelude.{◌≡◌, ◌^◌, ◌<◌, ◌≤◌, [], ◌++◌, All, MatchOption, IfSome, IsPermutation};
ghost use Rattle.slot_chain.specs.Buffer.{Buffer};
ghost use Rattle.digit_route.specs.Digits.{common};
ghost use Rattle.digit_route.specs.Limits.{largest_limit};
ghost use Rattle.digit_route.specs.States.{all_moves};
ghost use Rattle.digit_route.specs.Route.{GivesBucket};

use crate::row::Row;
use crate::walks::some_owner;
use crate::{Batch, Cache, Digits};
use std::fmt;
use std::marker::Model;

/// A cache that is being posted, one round for each digit.
///
/// In round `j`, from 0, the owners that are left share the digits below `j` with the desk, and the
/// buffers stand in a row by digit `j`. Each magazine of the row but that of the desk's own digit is
/// handed out whole, to some owner in it. Then the magazine of the desk's own digit is moved, buffer
/// by buffer, into the row of round `j + 1`. So a buffer is moved once for each digit that its
/// owner shares with the desk, less often than a number has digits.
///
/// No call takes memory.
#[must_use]
#[derive(Drop)]
pub struct Posting<'r> {
    row: Row<'r>,
    limit: u64,
    moves: u64,
}

impl<'r> Model for Posting<'r> {
    ghost use Rattle.std.specs.Prelude.{◌≤◌};
    ghost use Rattle.digit_route.specs.States.{PostingState};
    ghost use Rattle.digit_route.specs.Limits.{largest_limit};

    ghost Value = { PostingState };

    ghost view = { λ p. record {
      number = p.row.number;
      digits = p.row.digits;
      limit = p.limit;
      round = p.row.round;
      moves = p.moves;
      items = p.row.items;
    } };

    ghost invariant = { λ p. p.limit ≤ largest_limit };
}

impl<'r> Posting<'r> {
    pub(crate) fn new(row: Row<'r>, limit: u64) -> Posting<'r>
        requires { limit ≤ largest_limit }
        ensures { result ≡ record {
          number = row.entry.number;
          digits = row.entry.digits;
          limit = limit;
          round = row.entry.round;
          moves = 0;
          items = row.entry.items;
        } }
    {
        Posting {
            row,
            limit,
            moves: 0,
        }
    }

    /// The desk whose cache it is.
    pub fn number(&self) -> u16
        ensures { result ≡ self.now.number }
    {
        self.row.number()
    }

    /// How the numbers of desks are read.
    pub fn digits(&self) -> Digits
        ensures { result ≡ self.now.digits }
    {
        self.row.digits()
    }

    /// How often a buffer was moved from one round's row into the next, or the greatest `u64` where
    /// that is less.
    pub fn moves(&self) -> u64
        ensures { result ≡ self.now.moves }
    {
        self.moves
    }

    /// The round, which is the digit that the row stands by.
    pub fn round(&self) -> u32
        ensures { result ≡ self.now.round }
    {
        self.row.round()
    }

    /// Takes out the bucket for some owner of a buffer in it, or says that nothing is left.
    pub fn next_batch(&mut self) -> Option<Batch<'r>>
        ensures same { self.new ≡ record self.old {
          round = self.new.round;
          moves = self.new.moves;
          items = self.new.items;
        } }
        ensures value { MatchOption result ((self.old.items ≡ []) × (self.new.items ≡ []))
            (λ b. GivesBucket self.old.digits self.old.number self.old.items b self.new.items) }

        // The rounds come in order: a batch has what belongs to the round that the call ends in,
        // and less is not left.
        ensures here { IfSome result (λ b.
            All (λ (x : Buffer). common self.old.digits x.owner self.old.number ≡ self.new.round) b.items) }
        ensures left { All (λ (x : Buffer). self.new.round ≤ common self.old.digits x.owner self.old.number)
            self.new.items }
        ensures later { self.old.round ≤ self.new.round }

        // The moves made and those still to be made are together always as many, where a `u64` can
        // count them.
        ensures counted { all_moves self.old < 2 ^ 64 → all_moves self.new ≡ all_moves self.old }
    {
        loop {
            match self.row.find_other() {
                Some(k) => {
                    let magazine = self.row.take(k);
                    let address = some_owner(&magazine);
                    return Some(self.row.batch(address, magazine));
                }
                None => {
                    if self.row.is_empty() {
                        return None;
                    }
                    self.moves = self.moves.saturating_add(self.row.advance());
                }
            }
        }
    }

    /// Ends the posting: the cache of what is left and of the batch, which this desk would have
    /// sent.
    pub fn put_back(self, batch: Batch<'r>) -> Cache<'r>
        requires sender { batch.sender ≡ self.number }
        requires digits { batch.digits ≡ self.digits }
        ensures same { result ≡ record {
          number = self.entry.number;
          digits = self.entry.digits;
          limit = self.entry.limit;
          items = result.items;
        } }
        ensures items { IsPermutation (self.entry.items ++ batch.entry.items) result.items }
    {
        let mut cache = self.end();
        cache.put_back(batch);
        cache
    }

    /// Ends the posting: the cache of what is left.
    pub fn end(self) -> Cache<'r>
        ensures same { result ≡ record {
          number = self.entry.number;
          digits = self.entry.digits;
          limit = self.entry.limit;
          items = result.items;
        } }
        ensures items { IsPermutation self.entry.items result.items }
    {
        let Posting {
            row,
            limit,
            moves: _,
        } = self;
        Cache::from_row(row, limit)
    }

    // The row of what is left, by the first digit.
    pub(crate) fn into_row(self) -> Row<'r>
        ensures same { result ≡ record {
          number = self.entry.number;
          digits = self.entry.digits;
          round = 0;
          items = result.items;
        } }
        ensures items { IsPermutation self.entry.items result.items }
    {
        let Posting {
            row,
            limit: _,
            moves: _,
        } = self;
        row.restart()
    }
}

// The buffers are not printed.
impl fmt::Debug for Posting<'_> {
    fn fmt<W: fmt::Write>(&self, f: &mut fmt::Formatter<W>) -> fmt::Result {
        write!(f, "Posting(round {})", self.round())
    }
}
