//! What lies in a node.
ghost use Rattle.std.specs.Prelude.{◌≡◌, Some, None};

use digit_route::Batch;
use slot_chain::EmptyMagazine;
use std::marker::Model;

/// What lies in a node: a batch that goes to the receiver, or an empty magazine that goes back to the
/// sender. Contracts see the batch.
pub(crate) struct Load<'r> {
    batch: Option<Batch<'r>>,
    empty: EmptyMagazine<'r>,
}

impl<'r> Model for Load<'r> {
    ghost use Rattle.std.specs.Prelude.{Option};
    ghost use Rattle.digit_route.specs.States.{BatchState};

    ghost Value = { Option BatchState };

    ghost view = { λ l. l.batch };
}

// By hand, so that it is proved here once, and not again in each crate that lets an inbox go.
impl Drop for Load<'_> {
    fn drop(self) {
        let Load { batch, empty } = self;
        drop(batch);
        drop(empty);
    }
}

impl<'r> Load<'r> {
    /// With a batch, and no memory that goes back.
    pub(crate) fn full(batch: Batch<'r>) -> Load<'r>
        ensures { result ≡ Some batch.entry }
    {
        Load {
            batch: Some(batch),
            empty: EmptyMagazine::new(),
        }
    }

    /// Without a batch.
    pub(crate) fn vacant(empty: EmptyMagazine<'r>) -> Load<'r>
        ensures { result ≡ None }
    {
        Load { batch: None, empty }
    }

    /// The batch, where there is one.
    pub(crate) fn into_batch(self) -> Option<Batch<'r>>
        ensures { result ≡ self.entry }
    {
        let Load { batch, empty } = self;
        drop(empty);
        batch
    }

    /// The empty magazine, where there is no batch.
    pub(crate) fn into_empty(self) -> EmptyMagazine<'r>
        requires { self ≡ None }
    {
        let Load { batch, empty } = self;
        match batch {
            None => {}
            Some(_) => unreachable!(),
        }
        empty
    }
}
