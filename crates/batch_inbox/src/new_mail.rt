//! Inboxes that can be made new.
ghost use Rattle.std.specs.Prelude.{◌≡◌, ℕ, true, ◌≤◌, [], length, Some, slice_get, IfOk};
ghost use Rattle.batch_inbox.specs.Limits.{sender_limit};

use crate::mail::{Mailbox, Receiver, Sender};
use crate::{Inbox, SendSeat, TakeSeat};
use digit_route::Digits;
use slot_chain::NoMemory;
use std::alloc::Global;

/// An inbox that can be made new, with its seats. Whoever has a queue of their own implements it, so
/// that a pool can be opened over it.
pub trait NewMail<T: Receiver, S: Sender>: Mailbox + Sized {
    /// An empty inbox of the desk `address`, with the seat of its receiver and those of its senders,
    /// numbered from 0.
    ///
    /// Owner numbers are read as `digits` says.
    fn new_mail(
        alloc: Global,
        address: u16,
        digits: Digits,
        senders: u16,
    ) -> Result<(Self, T, Vec<S>), NoMemory>
        requires senders { (1 ≤ senders) × (senders ≤ sender_limit) }
        ensures inbox { IfOk result (λ r. (Self.id r.0).place ≡ record { address = address; digits = digits }) }
        ensures receiver { IfOk result (λ r.
            (T.inbox r.1 ≡ Self.id r.0) × (T.senders r.1 ≡ senders) × (T.taken r.1 ≡ [])) }
        ensures senders { IfOk result (λ r. (k : ℕ) (s : S) → slice_get r.2.items k ≡ Some s
            → (S.inbox s ≡ Self.id r.0) × (S.number s ≡ k) × (S.sent s ≡ []) × (S.resting s ≡ true)) }
        ensures count { IfOk result (λ r. length r.2.items ≡ senders) };
}

impl<'r> NewMail<TakeSeat<'r>, SendSeat<'r>> for Inbox<'r> {
    fn new_mail(
        alloc: Global,
        address: u16,
        digits: Digits,
        senders: u16,
    ) -> Result<(Inbox<'r>, TakeSeat<'r>, Vec<SendSeat<'r>>), NoMemory> {
        Inbox::new(alloc, address, digits, senders)
    }
}
