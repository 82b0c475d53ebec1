//! A program's own tasks: what each of them does, the heap and the edges that it is given, and the thread that runs it.

pub(crate) mod allocator_heap;
pub(crate) mod channels;
pub(crate) mod heap;
pub(crate) mod task;
pub(crate) mod worker;
