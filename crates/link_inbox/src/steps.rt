//! What each step on an inbox does to the seat that makes it. These types stand in contracts alone.
ghost use Rattle.link_inbox.specs.States.{IsFor};
ghost use Rattle.link_inbox.specs.Steps.{prepares, attaches, links, takes_next, frees};
ghost use Rattle.link_inbox.specs.Steps.{maker, newcomer, gathered, spent};

use crate::load::Load;
use crate::rule::View;
use atomic_table::{Join, Play, Split};
use digit_route::Batch;

/// A sender gets its next node in hand, if that is free.
pub struct Prepares;

impl<'r> Play<Load<'r>, View<Batch<'r>>> for Prepares {
    ghost then = { prepares };
}

/// A sender's node, with its batch, becomes the last.
pub struct Attaches;

impl<'r> Play<Load<'r>, View<Batch<'r>>> for Attaches {
    ghost then = { attaches };
}

/// The node before a sender's node names it.
pub struct Links;

impl<'r> Play<Load<'r>, View<Batch<'r>>> for Links {
    ghost then = { λ s m r n. links m n };
}

/// The receiver goes to the node that the front names, if it names one.
pub struct Takes;

impl<'r> Play<Load<'r>, View<Batch<'r>>> for Takes {
    ghost then = { takes_next IsFor };
}

/// The receiver frees the old front.
pub struct Frees;

impl<'r> Play<Load<'r>, View<Batch<'r>>> for Frees {
    ghost then = { λ s m r n. frees m n };
}

/// The receiver makes the next sender's seat, or takes a seat in.
pub struct Seats;

impl<'r> Split<View<Batch<'r>>> for Seats {
    ghost left = { maker };

    ghost right = { newcomer };
}

impl<'r> Join<View<Batch<'r>>> for Seats {
    ghost both = { gathered };

    ghost spent = { spent };
}
