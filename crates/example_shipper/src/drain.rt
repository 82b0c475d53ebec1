//! How a stage gives up.

use crate::stage::READER;
use fustrevol::{Edges, Heap, Message};
use std::sync::Wait;

/// Stops the reader, and frees what comes until nobody sends any more, so that no other stage waits for it. What
/// stops the reader is a parcel without buffers: any other would hold slots for which the reader may be waiting.
pub fn drain<H: Heap, R: Wait>(rt: &R, heap: &mut H, to: &Edges<H>, stop: H::Parcel) {
    if let Err(unsent) = to.try_send(rt, READER, Message::Parcel(stop)) {
        unsent.into_inner().free(rt, heap);
    }
    let _messages = to.free_rest(rt, heap);
}
