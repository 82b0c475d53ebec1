//! The seats at an inbox.
ghost use Rattle.std.specs.Prelude.{◌≡◌, is_none};

use crate::rule::Token;
use slot_chain::EmptyMagazine;
use std::fmt;
use std::marker::Model;

/// The right of one sender to send to an inbox.
///
/// Contracts see which inbox it is of, the sender's number, what was sent from it, and what it has
/// attached and not linked. With none of that it is at rest.
///
/// It may be dropped at any time. What was sent from it stays, and a batch that is attached and not
/// linked then holds back those behind it.
#[derive(Drop)]
pub struct SendSeat<'r> {
    pub(crate) token: Token<'r>,
    pub(crate) sender: u16,
    pub(crate) turn: u64,
    pub(crate) rests: bool,
    // What came back in the node that was used last.
    pub(crate) empty: EmptyMagazine<'r>,
}

impl<'r> Model for SendSeat<'r> {
    ghost use Rattle.link_inbox.specs.States.{SendState, inbox_of, half_of, IsSendSeat};

    ghost Value = { SendState };

    ghost view = { λ s. record {
      inbox = inbox_of s.token.table_id s.token.me.0.place;
      sender = s.sender;
      sent = s.token.me.0.list;
      half = half_of s.token.me.0.role s.token.me.0.node s.token.me.0.before;
    } };

    ghost invariant = { λ s. IsSendSeat s.token.table_id.slots s.token.me s.sender s.turn s.rests };
}

impl<'r> SendSeat<'r> {
    /// The number of the sender.
    pub fn sender(&self) -> u16
        ensures { result ≡ self.now.sender }
    {
        self.sender
    }

    /// Whether no batch of it is attached and not linked.
    pub fn at_rest(&self) -> bool
        ensures { result ≡ is_none self.now.half }
    {
        self.rests
    }
}

/// The right to take from an inbox, of which there is one.
///
/// Contracts see which inbox it is of, how many senders there are, and what was taken.
#[derive(Drop)]
pub struct TakeSeat<'r> {
    pub(crate) token: Token<'r>,
    pub(crate) front: u64,
    // What goes into the node of the next batch that is taken.
    pub(crate) empty: EmptyMagazine<'r>,
}

impl<'r> Model for TakeSeat<'r> {
    ghost use Rattle.batch_inbox.specs.States.{TakeState};
    ghost use Rattle.link_inbox.specs.States.{inbox_of, IsTakeSeat};

    ghost Value = { TakeState };

    ghost view = { λ s. record {
      inbox = inbox_of s.token.table_id s.token.me.0.place;
      senders = s.token.me.0.made;
      taken = s.token.me.0.list;
    } };

    ghost invariant = { λ s. IsTakeSeat s.token.table_id.slots s.token.me s.front };
}

/// A batch that was sent and can't be taken yet: it is attached, and not linked.
///
/// Contracts see which link is to be made. Only [`crate::LinkInbox::link`] makes it, with the seat
/// that the batch was sent from. Whoever drops it leaves that seat without rest for good.
#[must_use]
#[derive(Debug, Drop)]
pub struct Attached {
    pub(crate) node: u64,
    pub(crate) before: u64,
}

impl Model for Attached {
    ghost use Rattle.link_inbox.specs.States.{HalfLink};

    ghost Value = { HalfLink };

    ghost view = { λ a. record { node = a.node; before = a.before } };
}

impl fmt::Debug for SendSeat<'_> {
    fn fmt<W: fmt::Write>(&self, f: &mut fmt::Formatter<W>) -> fmt::Result {
        write!(f, "SendSeat(of {})", self.sender)
    }
}

impl fmt::Debug for TakeSeat<'_> {
    fn fmt<W: fmt::Write>(&self, f: &mut fmt::Formatter<W>) -> fmt::Result {
        f.write_str("TakeSeat")
    }
}
