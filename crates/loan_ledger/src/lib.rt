//! Who was lent which slot, over all threads.
//!
//! Slots are lent in one thread and taken back in another, and on the way they cross channels and locks, of
//! which no contract says what they hold. So whoever lends a slot cuts a [`Receipt`] for it off its
//! [`Loans`], and whoever takes it back joins the receipt into its own. At the end, with all loans joined,
//! no slot was taken back more often than it was lent.
//!
//! Loans and receipts have no bytes. As in std's `sync::ledger` an invariant holds what all of them did, and
//! no memory, no lock and no instruction stands for it.
#![tactic(auto)]

mod loans;
mod receipt;
mod token;
mod trades;

pub use loans::Loans;
pub use receipt::Receipt;
