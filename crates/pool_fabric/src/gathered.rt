//! What is gathered from the stations.
ghost use Rattle.std.specs.Prelude.{◌≡◌, ℕ, ◌+◌, ◌-◌, ◌<◌, [], length, IfOk};
ghost use Rattle.pool_fabric.specs.Ledgers.{whole};
ghost use Rattle.pool_fabric.specs.Names.{box_at};
ghost use Rattle.pool_fabric.specs.Gathered.{AddsStation, Closes};

use crate::column::{Column, last_column};
use crate::drained::drained;
use crate::held::HeldStation;
use crate::ledger::{Ledger, Page};
use crate::named::Named;
use crate::naming::Naming;
use batch_inbox::{Mail, Receiver, Sender};
use digit_route::Batch;
use pool_desk::Desk;
use slot_balance::{CountedNotes, Row};
use slot_chain::Buf;
use std::alloc::{AllocError, Global};
use std::marker::Model;
use std::sync::Wait;

/// Desks, seats and pages that came back, and what was found in the inboxes.
#[derive(Drop)]
pub(crate) struct Gathered<'r, T: Receiver, S: Sender, J: Naming> {
    pub(crate) columns: usize,
    pub(crate) desks: Vec<Desk<'r>>,
    pub(crate) takes: Vec<T>,
    pub(crate) rows: Vec<Row<S>>,
    pub(crate) page: Page,
    pub(crate) lent: CountedNotes<Buf<'r>>,
    pub(crate) freed: CountedNotes<Buf<'r>>,
    pub(crate) batches: Vec<Batch<'r>>,
    pub(crate) of: Named<J>,
}

impl<'r, T: Receiver, S: Sender, J: Naming> Model for Gathered<'r, T, S, J> {
    ghost use Rattle.std.specs.Prelude.{map};
    ghost use Rattle.pool_fabric.specs.Gathered.{GatheredState, IsGathered, taking_of};

    ghost Value = { GatheredState };

    ghost view = { λ s. record {
      columns = s.columns;
      desks = s.desks.items;
      takes = map (taking_of T.inbox T.senders T.taken) s.takes.items;
      rows = s.rows.items;
      page = s.page;
      lent = s.lent;
      freed = s.freed;
      batches = s.batches.items;
    } };

    ghost invariant = { λ s. IsGathered J.names (record {
      columns = s.columns;
      desks = s.desks.items;
      takes = map (taking_of T.inbox T.senders T.taken) s.takes.items;
      rows = s.rows.items;
      page = s.page;
      lent = s.lent;
      freed = s.freed;
      batches = s.batches.items;
    }) };
}

impl<'r, T: Receiver, S: Sender, J: Naming> Gathered<'r, T, S, J> {
    /// Nothing yet, with the page of the stock.
    pub(crate) fn new(alloc: Global, columns: usize, page: Page) -> Gathered<'r, T, S, J>
        requires page { (page.key ≡ J.names.ledger) × (page.got ≡ []) }
        requires loans { (page.loans ≡ J.names.loans) × (page.lent ≡ []) × (page.freed ≡ []) }
        ensures { result ≡ record {
          columns = columns;
          desks = [];
          takes = [];
          rows = [];
          page = page;
          lent = [];
          freed = [];
          batches = [];
        } }
    {
        Gathered {
            columns,
            desks: Vec::new(alloc),
            takes: Vec::new(alloc),
            rows: Vec::new(alloc),
            page,
            lent: CountedNotes::new(),
            freed: CountedNotes::new(),
            batches: Vec::new(alloc),
            of: Named::new(),
        }
    }

    /// Takes a station apart.
    pub(crate) fn add(
        self,
        ledger: &Ledger,
        station: HeldStation<'r, T, S, J>,
    ) -> Result<Gathered<'r, T, S, J>, AllocError>
        requires ledger { ledger.now ≡ J.names.ledger }
        requires parts { 0 < self.page.parts }
        requires number { (station.desk.number ≡ length self.rows) × (station.desk.number ≡ length self.takes) }
        requires columns { self.columns ≡ J.names.count }
        ensures { IfOk result (λ g. AddsStation station.entry self.entry g) }
    {
        let Gathered {
            columns,
            mut desks,
            mut takes,
            mut rows,
            mut page,
            lent,
            freed,
            batches,
            of,
        } = self;
        let HeldStation {
            desk,
            take,
            seats,
            page: theirs,
            lent: more_lent,
            freed: more_freed,
            of: _,
        } = station;
        desks.push(Box::into_inner(desk).into_inner())?;
        takes.push(take)?;
        rows.push(Row::new(seats))?;
        ledger.join(&mut page, theirs);
        let lent = lent.with(&more_lent);
        let freed = freed.with(&more_freed);
        Ok(Gathered {
            columns,
            desks,
            takes,
            rows,
            page,
            lent,
            freed,
            batches,
            of,
        })
    }

    /// Is never called: no station is left where the page has every part.
    pub(crate) fn exclude<R: Wait>(self, rt: &R, ledger: &Ledger, station: HeldStation<'r, T, S, J>)
        requires ledger { ledger.now ≡ J.names.ledger }
        requires parts { self.page.parts ≡ whole }
        ensures { ⊥ }
    {
        let mut page = self.page;
        ledger.exclude(rt, &mut page, station.page);
    }

    /// Ends the last inbox that is not ended yet.
    pub(crate) fn close<M: Mail<'r, TakeSeat = T, SendSeat = S>, R: Wait>(
        self,
        rt: &R,
        alloc: Global,
        inbox: M,
    ) -> Result<Gathered<'r, T, S, J>, AllocError>
        requires columns { (0 < self.columns) × (self.columns ≡ length self.takes)
            × (length self.rows ≡ J.names.count) }
        requires inbox { M.id inbox ≡ box_at J.names (self.columns - 1) }
        ensures { IfOk result (λ g. Closes self.entry g) }
    {
        let Gathered {
            columns,
            desks,
            mut takes,
            rows,
            page,
            lent,
            freed,
            mut batches,
            of,
        } = self;
        let Some(take) = takes.pop() else {
            unreachable!();
        };
        let Column { seats, rows, of: _ } = last_column::<S, J>(alloc, rows, columns - 1)?;
        let mut more = drained(rt, alloc, inbox, take, seats)?;
        batches.append(&mut more)?;
        Ok(Gathered {
            columns: columns - 1,
            desks,
            takes,
            rows,
            page,
            lent,
            freed,
            batches,
            of,
        })
    }
}
