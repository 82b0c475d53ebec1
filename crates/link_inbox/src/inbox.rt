//! The inbox.
ghost use Rattle.std.specs.Prelude.{◌≡◌, ℕ, ◌≤◌, [], ◌∷◌, ◌++◌};
ghost use Rattle.std.specs.Prelude.{length, Some, None, IfOk, IfErr, MatchResult};
ghost use Rattle.atomic_table.specs.Table.{rest};
ghost use Rattle.batch_inbox.specs.Limits.{sender_limit};
ghost use Rattle.batch_inbox.specs.Taking.{IsSameSeat, TakesAtMostOne};
ghost use Rattle.batch_inbox.specs.Views.{place_of};
ghost use Rattle.batch_inbox.specs.declared.error.PostError.TheVariants.{NoNode};
ghost use Rattle.link_inbox.specs.States.{AreSeatsOf, AreNew, AreAtRest};

use crate::load::Load;
use crate::opening::{opened, seated};
use crate::rule::{FREE, NODES, Nodes, SharedNodes, Token};
use crate::seats::{Attached, SendSeat, TakeSeat};
use crate::steps::{Attaches, Frees, Links, Prepares, Takes};
use batch_inbox::PostError;
use batch_inbox::place::Place;
use digit_route::{Batch, Digits};
use slot_chain::{EmptyMagazine, NoMemory};
use std::alloc::Global;
use std::marker::Model;
use std::{fmt, mem};

/// The message queue of one desk, with a seat for each sender and one for the receiver.
///
/// Threads share it by `&`. Contracts see which inbox it is; what it holds they see in the seats.
/// It may be dropped at any time, with what it holds, and so may its seats.
#[derive(Drop)]
pub struct LinkInbox<'r> {
    pub(crate) nodes: Nodes<'r>,
    pub(crate) place: Place,
}

impl<'r> Model for LinkInbox<'r> {
    ghost use Rattle.std.specs.Prelude.{◌≡◌, ◌+◌, ◌≤◌};
    ghost use Rattle.batch_inbox.specs.States.{InboxId};
    ghost use Rattle.link_inbox.specs.States.{inbox_of, node_limit};

    ghost Value = { InboxId };

    ghost view = { λ i. inbox_of i.nodes.shared.table_id i.place };

    ghost invariant = { λ i. (i.nodes.shared.key ≡ i.place)
        × (i.nodes.shared.table_id.words ≡ i.nodes.shared.table_id.slots + 1)
        × (i.nodes.shared.table_id.slots ≤ node_limit) };
}

impl<'r> LinkInbox<'r> {
    /// An empty inbox of the desk `address`, with the seats of its senders, numbered from 0.
    ///
    /// Owner numbers are read as `digits` says: in its profile, and with digits of its width. All the
    /// memory that the inbox ever has is taken here: 16 nodes for each sender and one more, each with
    /// a word of 8 bytes and room for a batch and for an empty magazine. It is refused where an
    /// allocation is.
    pub fn new(
        alloc: Global,
        address: u16,
        digits: Digits,
        senders: u16,
    ) -> Result<(LinkInbox<'r>, TakeSeat<'r>, Vec<SendSeat<'r>>), NoMemory>
        requires senders { (1 ≤ senders) × (senders ≤ sender_limit) }
        ensures inbox { IfOk result (λ r. r.0.place ≡ record { address = address; digits = digits }) }
        ensures receiver { IfOk result (λ r. r.1 ≡ record { inbox = r.0; senders = senders; taken = [] }) }
        ensures senders { IfOk result (λ r.
            AreSeatsOf r.0 r.2.items × (length r.2.items ≡ senders)
            × AreNew r.2.items × AreAtRest r.2.items) }
    {
        let place = Place { address, digits };
        let (nodes, mut token) = opened(alloc, &place, senders)?;
        let seats = seated(alloc, &nodes.shared, &mut token, senders)?;
        Ok((
            LinkInbox { nodes, place },
            TakeSeat {
                token,
                front: 0,
                empty: EmptyMagazine::new(),
            },
            seats,
        ))
    }

    /// The desk that takes from it, to which each batch in it is addressed.
    pub fn address(&self) -> u16
        ensures { result ≡ self.now.place.address }
    {
        self.place.address
    }

    /// How the numbers of the owners in its batches are read.
    pub fn digits(&self) -> Digits
        ensures { result ≡ self.now.place.digits }
    {
        self.place.digits
    }

    /// Sends a batch, which goes last. It can be taken once it is linked, and what goes behind it is
    /// held back until then.
    ///
    /// It is refused with [`PostError::NoNode`] where the sender's next node isn't free: 16 of its
    /// batches are in the inbox, or all but one, and the front rests on the node of the last that
    /// was taken. The batch then comes back. The call takes no memory and waits for nobody: it is one
    /// compare-exchange and one exchange.
    pub fn attach(
        &self,
        seat: &mut SendSeat<'r>,
        batch: Batch<'r>,
    ) -> Result<Attached, (Batch<'r>, PostError)>
        requires seat { (seat.old.inbox ≡ self.now) × (seat.old.half ≡ None) }
        requires batch { (place_of batch ≡ self.now.place) × (batch.sender ≡ seat.old.sender) }
        ensures seat { (seat.new.inbox ≡ seat.old.inbox) × (seat.new.sender ≡ seat.old.sender) }
        ensures batch { MatchResult result
            (λ a. (seat.new.sent ≡ seat.old.sent ++ batch.entry ∷ []) × (seat.new.half ≡ Some a))
            (λ e. (e.0 ≡ batch.entry) × (seat.new ≡ seat.old)) }
        ensures error { IfErr result (λ e. e.1 ≡ NoNode) }
    {
        let words = &self.nodes.shared;
        let node = seat.sender as u64 * NODES + 1 + seat.turn;
        let found = words.compare_exchange::<Prepares>(&mut seat.token, node as usize + 1, FREE, 0);
        if found != FREE {
            return Err((batch, PostError::NoNode));
        }
        let unused = words.exchange(&mut seat.token, node as usize, Load::full(batch));
        seat.empty = unused.into_empty();
        let before = words.swap::<Attaches>(&mut seat.token, 0, node);
        seat.turn = (seat.turn + 1) % NODES;
        seat.rests = false;
        Ok(Attached { node, before })
    }

    /// Links the batch that was attached from this seat, which is at rest then. The call takes no
    /// memory and waits for nobody: it is one store.
    pub fn link(&self, seat: &mut SendSeat<'r>, attached: Attached)
        requires seat { (seat.old.inbox ≡ self.now) × (seat.old.half ≡ Some attached) }
        ensures seat { (seat.new.inbox ≡ seat.old.inbox) × (seat.new.sender ≡ seat.old.sender) }
        ensures linked { (seat.new.sent ≡ seat.old.sent) × (seat.new.half ≡ None) }
    {
        let Attached { node, before } = attached;
        self.nodes
            .shared
            .store::<Links>(&mut seat.token, before as usize + 1, node);
        seat.rests = true;
    }

    /// Posts a batch, which goes last: attaches and links it. It is refused where
    /// [`LinkInbox::attach`] is.
    pub fn post(
        &self,
        seat: &mut SendSeat<'r>,
        batch: Batch<'r>,
    ) -> Result<(), (Batch<'r>, PostError)>
        requires seat { (seat.old.inbox ≡ self.now) × (seat.old.half ≡ None) }
        requires batch { (place_of batch ≡ self.now.place) × (batch.sender ≡ seat.old.sender) }
        ensures seat { (seat.new.inbox ≡ seat.old.inbox) × (seat.new.sender ≡ seat.old.sender)
            × (seat.new.half ≡ None) }
        ensures batch { MatchResult result
            (λ _. seat.new.sent ≡ seat.old.sent ++ batch.entry ∷ [])
            (λ e. (e.0 ≡ batch.entry) × (seat.new ≡ seat.old)) }
        ensures error { IfErr result (λ e. e.1 ≡ NoNode) }
    {
        let attached = self.attach(seat, batch)?;
        self.link(seat, attached);
        Ok(())
    }

    /// Takes the first batch, if it can be reached.
    ///
    /// It goes from the front to the node that the front's next word names, and to no other. So
    /// `None` is answered only where that word named none at that step: the inbox was empty then, or
    /// its first batch was half-linked. The call takes no memory and waits for nobody: it is one load,
    /// and one store where there is a batch.
    pub fn take(&self, seat: &mut TakeSeat<'r>) -> Option<Batch<'r>>
        requires { seat.old.inbox ≡ self.now }
        ensures seat { IsSameSeat seat.old seat.new }
        ensures batch { TakesAtMostOne self.now.place seat.old.taken seat.new.taken result }
    {
        let words = &self.nodes.shared;
        let front = seat.front;
        let found = words.load::<Takes>(&mut seat.token, front as usize + 1);
        if found == 0 {
            return None;
        }
        let empty = mem::take(&mut seat.empty);
        let batch = lift(words, &mut seat.token, found as usize, empty);
        words.store::<Frees>(&mut seat.token, front as usize + 1, FREE);
        seat.front = found;
        batch
    }

    /// Leaves the memory of a batch that was taken to who sends here: it goes back in the node of the
    /// batch that is taken next. Only the last one that was left is kept. Takes no memory and waits for
    /// nobody.
    pub fn return_empty(&self, seat: &mut TakeSeat<'r>, empty: EmptyMagazine<'r>)
        requires { seat.old.inbox ≡ self.now }
        ensures { seat.new ≡ seat.old }
    {
        seat.empty = empty;
    }

    /// The empty magazine that came back in the node of the batch that was sent last, or one without
    /// memory. It is handed out once. Takes no memory and waits for nobody.
    pub fn reclaim_empty(&self, seat: &mut SendSeat<'r>) -> EmptyMagazine<'r>
        requires { seat.old.inbox ≡ self.now }
        ensures { seat.new ≡ seat.old }
    {
        mem::take(&mut seat.empty)
    }
}

// Takes the batch out of the node that a seat took last, and leaves an empty magazine there. It is a function of its
// own, so that a look that finds no batch makes no place for one.
#[inline(never)]
fn lift<'r>(
    nodes: &SharedNodes<'r>,
    token: &mut Token<'r>,
    node: usize,
    empty: EmptyMagazine<'r>,
) -> Option<Batch<'r>>
    requires { (token.old.table_id ≡ nodes.now.table_id)
        × ((old : _) × (token.old.me.1 ≡ (node, old) ∷ rest token.old.me.1)) }
    ensures same { (token.new.table_id ≡ token.old.table_id) × (token.new.id ≡ token.old.id) }
    ensures batch { token.old.me.1 ≡ (node, result) ∷ rest token.old.me.1 }
    ensures left { token.new.me ≡ (token.old.me.0, (node, None) ∷ rest token.old.me.1) }
{
    nodes
        .exchange(token, node, Load::vacant(empty))
        .into_batch()
}

// The batches are not printed.
impl fmt::Debug for LinkInbox<'_> {
    fn fmt<W: fmt::Write>(&self, f: &mut fmt::Formatter<W>) -> fmt::Result {
        write!(f, "LinkInbox(of {})", self.place.address)
    }
}
