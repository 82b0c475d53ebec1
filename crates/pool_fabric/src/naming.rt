//! One name for what the stations of a fabric share.
use std::marker::Brand;

/// Names a fabric for contracts: its inboxes, ledgers and chunks, its digits and its limit, as its
/// stations know them. A type parameter carries the name, so that what crosses a thread, a lock or a
/// shelf is known to be of the same fabric.
///
/// A function that is generic over it opens the fabric. That function's caller passes [`Brand`], and
/// picks the names.
pub trait Naming {
    ghost use Rattle.pool_fabric.specs.Names.{Names};

    ghost names: { Names };
}

impl Naming for Brand {
    ghost use Rattle.pool_fabric.specs.Names.{nothing};

    ghost names = { nothing };
}
