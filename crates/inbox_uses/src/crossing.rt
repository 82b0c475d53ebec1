//! What crosses threads: an inbox is shared, seats are handed over.
use batch_inbox::{Inbox, Rest, SendSeat, TakeSeat};
use digit_route::Batch;

// What a thread is started with has to be `Send`.
fn crosses<T: Send + Drop>(value: T) {
    drop(value);
}

// What threads share has to be `Sync`.
fn is_shared<T: Sync>(_value: &T) {}

/// Threads share an inbox.
pub fn inbox_is_shared(inbox: &Inbox<'_>) {
    is_shared(inbox);
}

/// A sender's seat crosses.
pub fn send_seat_crosses(seat: SendSeat<'_>) {
    crosses(seat);
}

/// The receiver's seat crosses.
pub fn take_seat_crosses(seat: TakeSeat<'_>) {
    crosses(seat);
}

/// What is left of an inbox crosses.
pub fn rest_crosses(rest: Rest<'_>) {
    crosses(rest);
}

/// A batch crosses.
pub fn batch_crosses(batch: Batch<'_>) {
    crosses(batch);
}
