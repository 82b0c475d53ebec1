//! What holds between any two steps on an inbox, as the contract of a function that does nothing.
ghost use Rattle.batch_inbox.specs.Order.{KeepsOrder};

/// Whatever the threads have done so far: what a sender sent is what was taken of it, and then its
/// batches in the queue, in order. All that the queue holds goes to the inbox's place. There is one
/// receiver's seat, and one seat of each sender.
pub fn keeps_order()
    ensures { KeepsOrder }
{}
