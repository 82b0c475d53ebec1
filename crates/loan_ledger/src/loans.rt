//! What was lent, and what was taken back.
ghost use Rattle.std.specs.Prelude.{◌≡◌, ℕ, ◌+◌, ◌-◌, ◌<◌, ◌≤◌, [], ◌∷◌, ◌++◌};
ghost use Rattle.region_cut.specs.declared.slot.Slot.{Slot};
ghost use Rattle.loan_ledger.specs.Accounts.{account, whole};
ghost use Rattle.loan_ledger.specs.Weights.{weigh};

use crate::receipt::Receipt;
use crate::token::Token;
use crate::trades::{Joins, Lends, Parts, Picking, TakesBack};
use region_cut::Slot;
use std::marker::{Brand, Model};

/// The slots that one holder lent and those that it took back, and its parts of the right to know the
/// whole. It takes no memory, and its calls do nothing when they run.
///
/// Whatever the threads did with the receipts, no slot was taken back more often than it was lent: whoever
/// has all parts learns it ([`Loans::audit`]).
#[must_use]
#[derive(Drop)]
pub struct Loans {
    token: Token,
}

impl Model for Loans {
    ghost use Rattle.std.specs.Prelude.{◌≡◌, []};
    ghost use Rattle.loan_ledger.specs.Loans.{LoansState};

    ghost Value = { LoansState };

    ghost view = { λ l. record {
      ledger = l.token.name;
      parts = l.token.account.parts;
      lent = l.token.account.lent;
      freed = l.token.account.freed;
    } };

    ghost invariant = { λ l. l.token.account.out ≡ [] };
}

impl Loans {
    /// A new ledger's first loans, with every part: nothing was lent.
    pub fn open() -> Loans
        ensures { (result.parts ≡ whole) × (result.lent ≡ []) × (result.freed ≡ []) }
    {
        Loans {
            token: Token::open(),
        }
    }

    /// Others' loans, with one part: nothing was lent yet.
    #[inline(always)]
    pub fn split(&mut self) -> Loans
        requires { 1 < self.old.parts }
        ensures left { self.new ≡ record self.old { parts = self.old.parts - 1 } }
        ensures right { result ≡ record { ledger = self.old.ledger; parts = 1; lent = []; freed = [] } }
    {
        let mut token = self.token.another();
        self.token.trade::<Parts>(&mut token);
        Loans { token }
    }

    /// Takes in the loans of a holder that has ended.
    #[inline(always)]
    pub fn join(&mut self, other: Loans)
        requires { (other.ledger ≡ self.old.ledger) × (0 < self.old.parts) }
        ensures { self.new ≡ record {
          ledger = self.old.ledger;
          parts = self.old.parts + other.parts;
          lent = self.old.lent ++ other.lent;
          freed = self.old.freed ++ other.freed;
        } }
    {
        let Loans { token: mut theirs } = other;
        self.token.trade::<Joins>(&mut theirs);
    }

    /// The slot is lent: whoever has the receipt can show it.
    #[inline(always)]
    pub fn lend(&mut self, slot: Slot) -> Receipt
        requires { 0 < self.old.parts }
        ensures lent { self.new ≡ record self.old { lent = self.old.lent ++ slot ∷ [] } }
        ensures receipt { result ≡ record { ledger = self.old.ledger; slots = slot ∷ [] } }
    {
        self.lent::<Brand>(slot)
    }

    // The same, of a slot that is named.
    #[inline(always)]
    fn lent<K: Picking>(&mut self, slot: Slot) -> Receipt
        requires slot { slot ≡ K.slot }
        requires part { 0 < self.old.parts }
        ensures lent { self.new ≡ record self.old { lent = self.old.lent ++ slot ∷ [] } }
        ensures receipt { result ≡ record { ledger = self.old.ledger; slots = slot ∷ [] } }
    {
        let _slot = slot;
        let mut token = self.token.another();
        self.token.trade::<Lends<K>>(&mut token);
        Receipt { token }
    }

    /// Takes back the slots of a receipt, which anyone may have lent.
    #[inline(always)]
    pub fn take_back(&mut self, receipt: Receipt)
        requires { (receipt.ledger ≡ self.old.ledger) × (0 < self.old.parts) }
        ensures { self.new ≡ record self.old { freed = self.old.freed ++ receipt.slots } }
    {
        let Receipt { token: mut theirs } = receipt;
        self.token.trade::<TakesBack>(&mut theirs);
    }

    /// A receipt of no slot, into which others can be merged.
    #[inline(always)]
    pub fn blank(&mut self) -> Receipt
        ensures same { self.new ≡ self.old }
        ensures receipt { result ≡ record { ledger = self.old.ledger; slots = [] } }
    {
        Receipt {
            token: self.token.another(),
        }
    }

    /// With every part: however slots are weighed, what was taken back weighs at most what was lent. So no
    /// slot was taken back more often than it was lent.
    pub fn audit(&mut self)
        requires { self.old.parts ≡ whole }
        ensures same { self.new ≡ self.old }
        ensures bound { (h : Slot → ℕ) → weigh h self.new.freed ≤ weigh h self.new.lent }
    {
        let mut token = self.token.another();
        self.token.trade::<Brand>(&mut token);
    }
}
