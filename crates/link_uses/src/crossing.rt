//! What crosses threads: an inbox is shared, seats are handed over.
use link_inbox::{Attached, LinkInbox, SendSeat, TakeSeat};

// What a thread is started with has to be `Send`.
fn crosses<T: Send + Drop>(value: T) {
    drop(value);
}

// What threads share has to be `Sync`.
fn is_shared<T: Sync>(_value: &T) {}

/// Threads share an inbox.
pub fn inbox_is_shared(inbox: &LinkInbox<'_>) {
    is_shared(inbox);
}

/// An inbox crosses.
pub fn inbox_crosses(inbox: LinkInbox<'_>) {
    crosses(inbox);
}

/// A sender's seat crosses.
pub fn send_seat_crosses(seat: SendSeat<'_>) {
    crosses(seat);
}

/// The receiver's seat crosses.
pub fn take_seat_crosses(seat: TakeSeat<'_>) {
    crosses(seat);
}

/// A link to be made crosses.
pub fn attached_crosses(attached: Attached) {
    crosses(attached);
}
