//! Callers of `link_inbox`: what they learn from its contracts, and senders and receivers in threads for its tests.
//!
//! The pool itself calls nothing of this crate.
#![tactic(auto)]

mod crossing;
mod ending;
mod seating;
mod sending;
mod taking;

pub use crossing::{
    attached_crosses, inbox_crosses, inbox_is_shared, send_seat_crosses, take_seat_crosses,
};
pub use ending::{end, hand_out};
pub use inbox_uses::add_sender;
pub use seating::{put_seat, take_last_seat};
pub use sending::{Sending, deliver, send_all};
pub use taking::Taking;
