//! Tokens of a ledger, which tie what is freed to what was lent.
ghost use Rattle.std.specs.Prelude.{◌≡◌, ℕ};
ghost use Rattle.loan_ledger.specs.Accounts.{Account, account_coded, account, nothing, whole, Trades, Learns};

use std::marker::{Brand, Model, PhantomData};

/// How two tokens change together: what each has afterwards, of what both had.
pub trait Trade {
    ghost use Rattle.loan_ledger.specs.Accounts.{Account};

    ghost mine: { Account → Account → Account };

    ghost theirs: { Account → Account → Account };
}

impl Trade for Brand {
    ghost mine = { λ v w. v };

    ghost theirs = { λ v w. w };
}

/// A token of a ledger of loans. It takes no memory, and its calls do nothing when they run.
#[derive(Drop)]
pub struct Token {
    of: PhantomData<()>,
    pub ghost name: { ℕ },
    pub ghost account: { Account } by { account_coded },
}

impl Model for Token {
    ghost use Rattle.loan_ledger.specs.Tokens.{token_owns};

    ghost also_owns = { λ t. token_owns t.name t.account };
}

// It names no thread.
unsafe impl Send for Token {}

impl Token {
    ghost use Rattle.std.specs.Prelude.{[]};

    /// The first token of a new ledger, with every part.
    pub fn open() -> Token
        ensures { result.account ≡ account whole [] [] [] }
    {
        Token { of: PhantomData }
    }

    /// Another token of the ledger, with no part.
    pub fn another(&mut self) -> Token
        ensures same { self.new ≡ self.old }
        ensures name { result.name ≡ self.old.name }
        ensures account { result.account ≡ nothing }
    {
        Token { of: PhantomData }
    }

    /// Changes two tokens of the ledger together, as the rule allows.
    pub fn trade<K: Trade>(&mut self, other: &mut Token)
        requires name { other.old.name ≡ self.old.name }
        requires rule { Trades self.old.account other.old.account
            (K.mine self.old.account other.old.account) (K.theirs self.old.account other.old.account) }
        ensures name { (self.new.name ≡ self.old.name) × (other.new.name ≡ self.old.name) }
        ensures mine { self.new.account ≡ K.mine self.old.account other.old.account }
        ensures theirs { other.new.account ≡ K.theirs self.old.account other.old.account }
        ensures learns { Learns self.old.account }
    {}
}
