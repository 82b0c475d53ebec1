//! A thread may own, and hand over, a desk: each is passed to a call that wants `Send`.
use pool_desk::{Desk, IdleDesk};

// What a thread is started with has to be `Send`.
fn crosses<T: Send + Drop>(value: T) {
    drop(value);
}

/// A desk in the hands of a worker crosses.
pub fn desk_crosses(desk: Desk<'_>) {
    crosses(desk);
}

/// A desk that no worker holds crosses.
pub fn idle_desk_crosses(desk: IdleDesk<'_>) {
    crosses(desk);
}
