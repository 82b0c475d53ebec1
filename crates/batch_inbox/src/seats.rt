//! The seats at an inbox.
ghost use Rattle.std.specs.Prelude.{◌≡◌};

use crate::rule::Pass;
use std::fmt;
use std::marker::Model;

/// The right of one sender to post to an inbox.
///
/// Contracts see which inbox it is of, the sender's number, and what was sent from it.
#[derive(Drop)]
pub struct SendSeat<'r> {
    pub(crate) pass: Pass<'r>,
    pub(crate) sender: u16,
}

impl<'r> Model for SendSeat<'r> {
    ghost use Rattle.std.specs.Prelude.{◌≡◌, None};
    ghost use Rattle.batch_inbox.specs.States.{SendState, inbox_of};
    ghost use Rattle.batch_inbox.specs.Views.{poster};

    ghost Value = { SendState };

    ghost view = { λ s. record {
      inbox = inbox_of s.pass.web s.pass.me.view.client.place;
      sender = s.sender;
      sent = s.pass.me.view.client.sent;
    } };

    ghost invariant = { λ s. (s.pass.me.hand ≡ None) × (s.pass.me.spare ≡ None)
        × (s.pass.me.view.client ≡ poster s.pass.me.view.client.place s.sender s.pass.me.view.client.sent) };
}

impl<'r> SendSeat<'r> {
    /// The number of the sender.
    pub fn sender(&self) -> u16
        ensures { result ≡ self.now.sender }
    {
        self.sender
    }
}

/// The right to take from an inbox, of which there is one.
///
/// Contracts see which inbox it is of, how many senders there are, and what was taken.
#[derive(Drop)]
pub struct TakeSeat<'r> {
    pub(crate) pass: Pass<'r>,
}

impl<'r> Model for TakeSeat<'r> {
    ghost use Rattle.std.specs.Prelude.{◌≡◌, None, []};
    ghost use Rattle.batch_inbox.specs.States.{TakeState, inbox_of};
    ghost use Rattle.batch_inbox.specs.Views.{taker};

    ghost Value = { TakeState };

    ghost view = { λ s. record {
      inbox = inbox_of s.pass.web s.pass.me.view.client.place;
      senders = s.pass.me.view.client.made;
      taken = s.pass.me.view.client.taken;
    } };

    ghost invariant = { λ s. (s.pass.me.hand ≡ None) × (s.pass.me.spare ≡ None)
        × (s.pass.me.view.client
        ≡ taker s.pass.me.view.client.place s.pass.me.view.client.made s.pass.me.view.client.taken []) };
}

impl fmt::Debug for SendSeat<'_> {
    fn fmt<W: fmt::Write>(&self, f: &mut fmt::Formatter<W>) -> fmt::Result {
        write!(f, "SendSeat(of {})", self.sender)
    }
}

impl fmt::Debug for TakeSeat<'_> {
    fn fmt<W: fmt::Write>(&self, f: &mut fmt::Formatter<W>) -> fmt::Result {
        f.write_str("TakeSeat")
    }
}
