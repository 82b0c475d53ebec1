//! What shows that slots were lent.
ghost use Rattle.std.specs.Prelude.{◌≡◌, [], ◌∷◌, ◌++◌};
ghost use Rattle.loan_ledger.specs.Accounts.{account};

use crate::token::Token;
use crate::trades::{HandsOn, Joins, Picking};
use region_cut::Slot;
use std::marker::{Brand, Model};

/// Shows that its slots were lent, each as often as it is there, and are not taken back yet. It takes no
/// memory, and its calls do nothing when they run.
///
/// Where it is dropped its slots stay out for good.
#[must_use]
#[derive(Drop)]
pub struct Receipt {
    pub(crate) token: Token,
}

impl Model for Receipt {
    ghost use Rattle.std.specs.Prelude.{◌≡◌, []};
    ghost use Rattle.loan_ledger.specs.Accounts.{account};
    ghost use Rattle.loan_ledger.specs.Loans.{ReceiptState};

    ghost Value = { ReceiptState };

    ghost view = { λ r. record { ledger = r.token.name; slots = r.token.account.out } };

    ghost invariant = { λ r. r.token.account ≡ account 0 [] [] r.token.account.out };
}

impl Receipt {
    /// Takes in another receipt: its slots stand behind those that are there.
    #[inline(always)]
    pub fn merge(&mut self, other: Receipt)
        requires { other.ledger ≡ self.old.ledger }
        ensures { self.new ≡ record self.old { slots = self.old.slots ++ other.slots } }
    {
        let Receipt { token: mut theirs } = other;
        self.token.trade::<Joins>(&mut theirs);
    }

    /// Hands on the last slot, which is this one.
    #[inline(always)]
    pub fn split_last(&mut self, slot: Slot) -> Receipt
        requires last { (kept : _) × (self.old.slots ≡ kept ++ slot ∷ []) }
        ensures kept { self.old.slots ≡ self.new.slots ++ slot ∷ [] }
        ensures same { self.new.ledger ≡ self.old.ledger }
        ensures receipt { result ≡ record { ledger = self.old.ledger; slots = slot ∷ [] } }
    {
        self.handed_on::<Brand>(slot)
    }

    // The same, of a slot that is named.
    #[inline(always)]
    fn handed_on<K: Picking>(&mut self, slot: Slot) -> Receipt
        requires slot { slot ≡ K.slot }
        requires last { self.old.slots ≡ K.kept ++ K.slot ∷ [] }
        ensures kept { self.new ≡ record self.old { slots = K.kept } }
        ensures receipt { result ≡ record { ledger = self.old.ledger; slots = slot ∷ [] } }
    {
        let _slot = slot;
        let mut token = self.token.another();
        self.token.trade::<HandsOn<K>>(&mut token);
        Receipt { token }
    }
}
