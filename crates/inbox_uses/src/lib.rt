//! Callers of `batch_inbox`: what they learn from its contracts, and senders and receivers in threads for its tests.
//!
//! The pool itself calls nothing of this crate.
#![tactic(auto)]

mod counting;
mod crossing;
mod empties;
mod handling;
mod posting;
mod seating;
mod supply;
mod taking;
mod tally;
mod workers;

pub use counting::Counting;
pub use crossing::{
    batch_crosses, inbox_is_shared, rest_crosses, send_seat_crosses, take_seat_crosses,
};
pub use empties::{has_room, room};
pub use handling::take_and_handle;
pub use posting::{Posting, deliver, post_all};
pub use seating::{put_seat, take_last_seat};
pub use supply::{OWNER, Supply, region};
pub use taking::{Taking, take_all};
pub use tally::{Tally, mark, mark_of};
pub use workers::{Worker, add_sender, run_all, run_beside, run_both};
