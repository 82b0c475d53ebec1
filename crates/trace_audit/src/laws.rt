//! What follows from the definitions that the contracts of this crate cite. Each law is the
//! contract of a function, which does nothing but what the law speaks of.
ghost use Rattle.trace_audit.specs.Laws.{ReadInOneWay, TextsAreTraces};

/// Bytes are a trace in one way at most: two readings of them have the same header, the same
/// requests in the same order, and the same end.
pub fn traces_are_read_in_one_way()
    ensures { ReadInOneWay }
{}

/// Behind a good header line, whatever follows is a trace: good request lines, and an end.
pub fn texts_are_traces()
    ensures { TextsAreTraces }
{}
