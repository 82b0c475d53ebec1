//! Batches come, and go.
ghost use Rattle.std.specs.Prelude.{◌≡◌, ◌<◌, ◌≤◌, [], ◌++◌, List, length, MatchOption, MatchResult, IsPermutation};
ghost use Rattle.digit_route.specs.Route.{GivesBucket};
ghost use Rattle.slot_balance.specs.Limits.{most_taken};
ghost use Rattle.slot_balance.specs.Posts.{Posts, SendsOrKeeps, TakesSome, sent_at};
ghost use Rattle.seated_desk.specs.Kept.{IsRefusedOf};
ghost use Rattle.slot_balance.specs.Seats.{AreSeatsAt};
ghost use Rattle.seated_desk.specs.Ways.{seats_at};

use digit_route::{Batch, Refused};
use link_inbox::{LinkInbox, SendSeat, TakeSeat};
use pool_desk::Desk;
use slot_chain::EmptyMagazine;

// How many batches are taken at a time.
const MOST_TAKEN: u32 = 64;

// Of how many buffers no further batch is taken at a time.
const MOST_HANDLED: u64 = 1024;

/// Takes batches from a desk's inbox and handles each, until there is none, 1,024 buffers or more were handled, or 64
/// batches were taken. Says how many.
pub(crate) fn take_some<'r>(
    desk: &mut Desk<'r>,
    inbox: &LinkInbox<'r>,
    seat: &mut TakeSeat<'r>,
) -> u32
    requires inbox { inbox.now.place ≡ record { address = desk.old.number; digits = desk.old.digits } }
    requires seat { seat.old.inbox ≡ inbox.now }
    ensures most { result ≤ most_taken }
    ensures takes { TakesSome desk.old seat.old result desk.new seat.new }
{
    let mut handled = 0u64;
    for taken in 0..MOST_TAKEN {
        let Some(batch) = inbox.take(seat) else {
            return taken;
        };
        let (counts, empty) = desk.handle_and_empty(batch);
        inbox.return_empty(seat, empty);
        handled = handled.saturating_add(counts.home.saturating_add(counts.on));
        if handled >= MOST_HANDLED {
            return taken + 1;
        }
    }
    MOST_TAKEN
}

// The next batch to be posted, of a first round while there is one.
fn next_of<'r>(desk: &mut Desk<'r>) -> Option<Batch<'r>>
    ensures same { desk.new ≡ record desk.old { cached = desk.new.cached } }
    ensures value { MatchOption result ((desk.old.cached ≡ []) × (desk.new.cached ≡ []))
        (λ b. GivesBucket desk.old.digits desk.old.number desk.old.cached b desk.new.cached) }
{
    match desk.next_of_first_round() {
        Some(batch) => Some(batch),
        None => desk.next_batch(),
    }
}

// Posts a batch to its address, and gives the memory of one that was emptied there. The batch comes back where it
// is refused.
fn send<'r>(
    inboxes: &[LinkInbox<'r>],
    seats: &mut [SendSeat<'r>],
    batch: Batch<'r>,
) -> Result<EmptyMagazine<'r>, Batch<'r>>
    requires { AreSeatsAt batch.digits batch.sender inboxes.now (seats_at seats.old) }
    ensures { let b = batch.entry in MatchResult result
        (λ _. (b.address < length seats.old) × (seats_at seats.new ≡ sent_at b.address b (seats_at seats.old)))
        (λ x. (x ≡ b) × (seats_at seats.new ≡ seats_at seats.old)) }
{
    let at = usize::from(batch.address());
    if at >= seats.len() {
        return Err(batch);
    }
    let inbox = &inboxes[at];
    let seat = &mut seats[at];
    match inbox.post(seat, batch) {
        Ok(()) => Ok(inbox.reclaim_empty(seat)),
        Err((batch, _)) => Err(batch),
    }
}

// Posts a batch to its address, and gives the memory of one that was emptied there; or sets its buffers aside where
// it is refused.
fn post_or_keep<'r>(
    inboxes: &[LinkInbox<'r>],
    seats: &mut [SendSeat<'r>],
    batch: Batch<'r>,
    refused: &mut Refused<'r>,
) -> Option<EmptyMagazine<'r>>
    requires seats { AreSeatsAt batch.digits batch.sender inboxes.now (seats_at seats.old) }
    requires refused { (refused.old.number ≡ batch.sender) × (refused.old.digits ≡ batch.digits) }
    ensures same { refused.new ≡ record refused.old { items = refused.new.items } }
    ensures goes { SendsOrKeeps batch.entry (seats_at seats.old) refused.old.items
        (seats_at seats.new) refused.new.items }
{
    match send(inboxes, seats, batch) {
        Ok(empty) => Some(empty),
        Err(batch) => {
            refused.add(batch);
            None
        }
    }
}

// Takes the memory that came back from `address`, where a batch went. Says how many went.
fn reuse<'r>(desk: &mut Desk<'r>, address: u16, empty: Option<EmptyMagazine<'r>>) -> u64
    ensures { desk.new ≡ desk.old }
{
    let Some(empty) = empty else {
        return 0;
    };
    desk.reuse(address, empty);
    1
}

/// Posts all that is cached, and sets aside what is refused. Says how many batches went.
pub(crate) fn post_each<'r>(
    desk: &mut Desk<'r>,
    inboxes: &[LinkInbox<'r>],
    seats: &mut [SendSeat<'r>],
    refused: &mut Refused<'r>,
) -> u64
    requires seats { AreSeatsAt desk.old.digits desk.old.number inboxes.now (seats_at seats.old) }
    requires of { IsRefusedOf desk.old refused.old }
    requires none { refused.old.items ≡ [] }
    ensures same { desk.new ≡ record desk.old { cached = [] } }
    ensures of { IsRefusedOf desk.new refused.new }
    ensures posts { let d = desk.old in
        Posts d.digits d.number d.cached (seats_at seats.old) [] refused.new.items (seats_at seats.new) }
{
    let mut posted = 0u64;
    while let Some(batch) = next_of(desk) {
        let address = batch.address();
        let empty = post_or_keep(inboxes, seats, batch, refused);
        posted = posted.saturating_add(reuse(desk, address, empty));
    }
    posted
}
