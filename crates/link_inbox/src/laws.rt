//! What holds between any two steps on an inbox, as the contract of a function that does nothing.
ghost use Rattle.link_inbox.specs.Order.{KeepsOrder};

/// Whatever the threads have done so far, until the inbox is ended: there is one receiver's seat, and
/// one seat of each sender. From the front, the node after a node is the one that its next word
/// names, or else the one that a sender has attached behind it, and so one comes to the node that
/// the back word names. These nodes have the batches of the queue in their slots. What a sender sent
/// is what was taken of it, and then its batches in the queue, in order. The slot of a free node is
/// empty.
pub fn keeps_order()
    ensures { KeepsOrder }
{}
