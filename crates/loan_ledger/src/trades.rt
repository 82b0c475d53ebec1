//! How the tokens of a ledger change.
use crate::token::Trade;
use std::marker::{Brand, PhantomData};

// One part goes from the first to the second.
pub struct Parts;

impl Trade for Parts {
    ghost use Rattle.std.specs.Prelude.{◌+◌, ◌-◌};
    ghost use Rattle.loan_ledger.specs.Accounts.{account};

    ghost mine = { λ v w. account (v.parts - 1) v.lent v.freed v.out };

    ghost theirs = { λ v w. account (w.parts + 1) w.lent w.freed w.out };
}

// All goes from the second to the first.
pub struct Joins;

impl Trade for Joins {
    ghost use Rattle.std.specs.Prelude.{◌+◌, ◌++◌};
    ghost use Rattle.loan_ledger.specs.Accounts.{account, nothing};

    ghost mine = { λ v w. account (v.parts + w.parts) (v.lent ++ w.lent) (v.freed ++ w.freed) (v.out ++ w.out) };

    ghost theirs = { λ v w. nothing };
}

// What the second one stands for is taken back by the first.
pub struct TakesBack;

impl Trade for TakesBack {
    ghost use Rattle.std.specs.Prelude.{[], ◌++◌};
    ghost use Rattle.loan_ledger.specs.Accounts.{account};

    ghost mine = { λ v w. account v.parts v.lent (v.freed ++ w.out) v.out };

    ghost theirs = { λ v w. account w.parts w.lent w.freed [] };
}

/// A slot that a contract can name. The call that lends it, or hands it on, picks it.
pub trait Picking {
    ghost use Rattle.std.specs.Prelude.{List};
    ghost use Rattle.region_cut.specs.declared.slot.Slot.{Slot};

    ghost slot: { Slot };

    ghost kept: { List Slot };
}

impl Picking for Brand {
    ghost use Rattle.std.specs.Prelude.{[]};

    ghost slot = { record { chunk = 0; index = 0 } };

    ghost kept = { [] };
}

// The first lends the slot, and the second stands for it.
pub struct Lends<K> {
    slot: PhantomData<K>,
}

impl<K: Picking> Trade for Lends<K> {
    ghost use Rattle.std.specs.Prelude.{[], ◌∷◌, ◌++◌};
    ghost use Rattle.loan_ledger.specs.Accounts.{account};

    ghost mine = { λ v w. account v.parts (v.lent ++ K.slot ∷ []) v.freed v.out };

    ghost theirs = { λ v w. account w.parts w.lent w.freed (w.out ++ K.slot ∷ []) };
}

// The first hands the slot on, and keeps the others that it stands for.
pub struct HandsOn<K> {
    slot: PhantomData<K>,
}

impl<K: Picking> Trade for HandsOn<K> {
    ghost use Rattle.std.specs.Prelude.{[], ◌∷◌, ◌++◌};
    ghost use Rattle.loan_ledger.specs.Accounts.{account};

    ghost mine = { λ v w. account v.parts v.lent v.freed K.kept };

    ghost theirs = { λ v w. account w.parts w.lent w.freed (w.out ++ K.slot ∷ []) };
}
