//! The place that an inbox is opened at.
use std::marker::Brand;

/// A place that a contract can name. The call that opens an inbox picks it.
pub trait Placing {
    ghost use Rattle.batch_inbox.specs.declared.place.Place.{Place};

    ghost place: { Place };
}

impl Placing for Brand {
    ghost use Rattle.batch_inbox.specs.Views.{nowhere};

    ghost place = { nowhere };
}
