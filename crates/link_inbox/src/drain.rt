//! How an inbox is ended.
ghost use Rattle.std.specs.Prelude.{◌≡◌, ◌*◌, ◌+◌, ◌%◌, ◌<◌, ◌≤◌, ◌++◌, [], ℕ};
ghost use Rattle.std.specs.Prelude.{length, map, Some, slice_get, slice_index_or};
ghost use Rattle.batch_inbox.specs.Limits.{sender_limit};
ghost use Rattle.batch_inbox.specs.States.{left};
ghost use Rattle.batch_inbox.specs.Views.{batches_of};
ghost use Rattle.link_inbox.specs.States.{SendState, AreSeatsOf, inbox_of};
ghost use Rattle.link_inbox.specs.declared.rule.Role.TheVariants.{Ready};

use crate::inbox::LinkInbox;
use crate::rest::Rest;
use crate::round::Round;
use crate::rule::{SENDERS, SharedNodes, Token};
use crate::seats::{SendSeat, TakeSeat};
use crate::steps::Seats;

// The receiver takes all senders in. Gives the turn of each.
fn gathered<'r>(
    words: &SharedNodes<'r>,
    token: &mut Token<'r>,
    mut seats: Vec<SendSeat<'r>>,
) -> [u64; SENDERS]
    requires token { (token.old.table_id ≡ words.now.table_id) × (token.old.me.0.role ≡ Ready)
        × (token.old.me.0.known ≡ []) × (token.old.me.1 ≡ []) × (1 ≤ words.now.table_id.words) }
    requires seats { AreSeatsOf (inbox_of words.now.table_id words.now.key) seats.items
        × (length seats.items ≤ sender_limit) × (0 < length seats.items) }
    ensures token { (token.new.table_id ≡ token.old.table_id) × (token.new.me.0.role ≡ Ready)
        × (token.new.me.1 ≡ []) }
    ensures taken { (token.new.me.0.list ≡ token.old.me.0.list) × (token.new.me.0.made ≡ token.old.me.0.made) }
    ensures known { (token.new.me.0.known ≡ map (λ s. s.sent) seats.entry.items) × (token.new.me.0.sender ≡ 0) }
    ensures turns { (k : ℕ) (s : SendState) → slice_get seats.entry.items k ≡ Some s
        → slice_index_or result k 0 ≡ length s.sent % 16 }
{
    let mut turns = [0; SENDERS];
    while let Some(seat) = seats.pop() {
        let SendSeat {
            token: other,
            sender,
            turn,
            rests: _,
            empty: _,
        } = seat;
        turns[sender as usize] = turn;
        words.join_seat::<Seats>(token, other);
    }
    turns
}

impl<'r> LinkInbox<'r> {
    /// Ends the inbox, given all its seats. What was sent and not taken is left, of each sender in
    /// its order, half-linked batches too. It takes no memory.
    pub fn drain(self, seat: TakeSeat<'r>, seats: Vec<SendSeat<'r>>) -> Rest<'r>
        requires seat { seat.inbox ≡ self }
        requires seats { AreSeatsOf self seats.items × (length seats.items ≡ seat.senders) }
        ensures all { (k : ℕ) (s : SendState) → slice_get seats.entry.items k ≡ Some s
            → s.sent ≡ batches_of k seat.entry.taken ++ left result k }
        ensures only { (k : ℕ) → length seats.entry.items ≤ k
            → (batches_of k seat.entry.taken ≡ []) × (left result k ≡ []) }
    {
        let Self { nodes, place: _ } = self;
        let TakeSeat {
            mut token,
            front: _,
            empty: _,
        } = seat;
        let senders = seats.len() as u64;
        let turns = gathered(&nodes.shared, &mut token, seats);
        let mut closed = nodes.close_with(token);
        drop(closed.take(0));
        Rest {
            round: Round {
                closed,
                turns,
                senders,
                next: 0,
            },
        }
    }
}
