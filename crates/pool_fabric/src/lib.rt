//! What the desks of a pool share: inboxes, a shelf of stations, and a stock of chunks.
//!
//! A [`Station`] is a desk with its seats at the inboxes. Stations that no worker holds stand on a
//! [`Shelf`], and the chunks that no desk drew in a [`Stock`]; both lie beside the inboxes in a
//! [`Fabric`], which threads share by `&`. A worker allocates and frees at its [`HeldStation`]
//! alone: as in snmalloc ("snmalloc: A Message Passing Allocator", ISMM 2019) no lock is taken for
//! it, and what goes to another desk goes through an inbox.
//!
//! The type of a station keeps a balance of its slots, so that nothing is lost on the way: when all
//! stations are back and all inboxes drained, [`gather`] finds each slot.
#![tactic(auto)]

mod buffer;
mod column;
mod drained;
mod error;
mod fabric;
mod found;
mod gathered;
mod held;
mod in_part;
mod ledger;
mod listing;
mod named;
mod naming;
mod opening;
mod parcel;
mod shelf;
mod shelving;
mod station;
mod stock;
mod store;
mod work;

pub use buffer::Buffer;
pub use error::GatherError;
pub use fabric::{Fabric, MOST_HANDLED, MOST_TAKEN};
pub use found::{Found, gather};
pub use held::HeldStation;
pub use in_part::FoundInPart;
pub use ledger::{Ledger, Page};
pub use listing::account;
pub use named::Named;
pub use naming::Naming;
pub use opening::Opening;
pub use parcel::Parcel;
pub use shelf::{SHELF_ROOM, Shelf};
pub use slot_balance::CountedNotes;
pub use station::Station;
pub use stock::Stock;
