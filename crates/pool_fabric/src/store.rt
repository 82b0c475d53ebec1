//! What lies under the stock's lock.
ghost use Rattle.std.specs.Prelude.{◌≡◌, ℕ, ◌+◌, ◌<◌, [], ◌∷◌, ◌++◌, MatchOption};
ghost use Rattle.pool_fabric.specs.Ledgers.{whole};
ghost use Rattle.pool_fabric.specs.Losses.{AreOnce};
ghost use Rattle.pool_fabric.specs.Stocks.{GivesPart, IsFull};
ghost use Rattle.pool_fabric.specs.Pages.{drawn_for};
ghost use Rattle.pool_fabric.specs.Accounts.{of_part};
ghost use Rattle.slot_balance.specs.Weights.{weigh};

use crate::ledger::{Ledger, Page};
use crate::named::Named;
use crate::naming::Naming;
use crate::stock::Stock;
use region_cut::{Class, Part};
use std::marker::Model;

/// The stock, with the page of the ledger on which stands what it gave.
#[derive(Drop)]
pub(crate) struct Store<'r, J: Naming> {
    pub(crate) stock: Stock<'r>,
    pub(crate) book: Page,
    pub(crate) of: Named<J>,
}

impl<'r, J: Naming> Model for Store<'r, J> {
    ghost use Rattle.pool_fabric.specs.Stocks.{StockState, IsStore};

    ghost Value = { StockState };

    ghost view = { λ s. s.stock };

    ghost invariant = { λ s. IsStore J.names s.stock s.book };
}

impl<'r, J: Naming> Store<'r, J> {
    /// The store of a full stock.
    pub(crate) fn new(stock: Stock<'r>, book: Page) -> Store<'r, J>
        requires book { (book.key ≡ J.names.ledger) × (book.loans ≡ J.names.loans) × (book.gave ≡ []) × (book.got ≡ [])
            × (book.lent ≡ []) × (book.freed ≡ [])
            × (book.parts + J.names.count ≡ whole) × (0 < book.parts) }
        requires chunks { (g : ℕ → ℕ) → weigh (of_part g) stock.left ≡ weigh g J.names.chunks }
        requires full { IsFull stock }
        requires once { AreOnce J.names.chunks }
        ensures { result ≡ stock.entry }
    {
        Store {
            stock,
            book,
            of: Named::new(),
        }
    }

    /// Gets a part for a holder of this page, on which it is written with its class.
    pub(crate) fn deal(
        &mut self,
        ledger: &Ledger,
        page: &mut Page,
        class: Class,
    ) -> Option<Part<'r>>
        requires ledger { ledger.now ≡ J.names.ledger }
        requires page { (page.old.key ≡ J.names.ledger) × (page.old.parts ≡ 1) × (page.old.gave ≡ []) }
        ensures stock { MatchOption result
            ((self.old.left ≡ []) × (self.new ≡ self.old))
            (λ p. GivesPart self.old class p self.new) }
        ensures page { MatchOption result
            (page.new ≡ page.old)
            (λ p. page.new ≡ record page.old { got = page.old.got ++ drawn_for p.chunk class ∷ [] }) }
    {
        let part = self.stock.get(class)?;
        ledger.deal(&mut self.book, page, part.chunk(), class);
        Some(part)
    }
}
