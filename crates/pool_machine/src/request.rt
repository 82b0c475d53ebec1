//! What is asked of a pool.

/// One event. All numbers are taken as they come: one that is out of range for the pool is refused by name.
#[derive(Clone, Copy, Debug, PartialEq, Eq)]
pub enum Request {
    /// The desk is to be held by the worker.
    Adopt(u32, u32),
    /// The desk is to be held by nobody.
    Retire(u32),
    /// The desk is to draw a chunk for the class.
    Claim(u32, u32),
    /// The desk is to lend a buffer of at least so many bytes.
    Alloc(u32, u32),
    /// The desk is handed back the buffer of a slot: the number of its chunk, and its place there.
    Free(u32, (u32, u32)),
    /// The first desk is to send the second all that goes to it.
    Send(u32, u32),
    /// The batch of this number is to be linked, so that it can be taken once it is the front of its inbox.
    Link(u32),
    /// The desk is to take the front of its inbox.
    Take(u32),
}
