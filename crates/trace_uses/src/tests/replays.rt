//! Replays over memory, and what they leave.
ghost use Rattle.std.specs.Prelude.{◌≡◌, false};

use crate::memory::{Kept, Pieces};
use std::alloc::Global;
use trace_audit::{End, Fault, ReplayError, Sink, Source, replay, replay_audited};

/// How a replay ended, and what its audit answered, if it has one.
pub(crate) type Audited = (End, Option<Result<(), Fault>>);

/// What a replay answered, how many reads it made, and its writer.
#[derive(Drop)]
pub(crate) struct Left {
    pub answer: Result<Audited, ReplayError>,
    pub reads: u64,
    pub written: Kept,
}

/// A replay from this reader to this writer.
pub(crate) fn replay_over<'a>(alloc: Global, reader: Pieces<'a>, writer: Kept) -> Left
    requires reader_down { ⟦<Pieces<'a> as Source>⟧.has_failed reader ≡ false }
    requires writer_down { ⟦<Kept as Sink>⟧.has_failed writer ≡ false }
{
    let mut reader = reader;
    let mut written = writer;
    let answer = match replay(alloc, &mut reader, &mut written) {
        Ok(end) => Ok((end, None)),
        Err(error) => Err(error),
    };
    Left {
        answer,
        reads: reader.reads,
        written,
    }
}

/// A replay of these bytes that nothing disturbs.
pub(crate) fn replayed(alloc: Global, trace: &[u8]) -> Left {
    replay_over(alloc, Pieces::new(trace, usize::MAX, 0), Kept::all(alloc))
}

/// An audited replay from this reader to this writer.
pub(crate) fn audit_over<'a>(alloc: Global, reader: Pieces<'a>, writer: Kept) -> Left
    requires reader_down { ⟦<Pieces<'a> as Source>⟧.has_failed reader ≡ false }
    requires writer_down { ⟦<Kept as Sink>⟧.has_failed writer ≡ false }
{
    let mut reader = reader;
    let mut written = writer;
    let answer = replay_audited(alloc, &mut reader, &mut written);
    Left {
        answer,
        reads: reader.reads,
        written,
    }
}

/// An audited replay of these bytes that nothing disturbs.
pub(crate) fn audited(alloc: Global, trace: &[u8]) -> Left {
    audit_over(alloc, Pieces::new(trace, usize::MAX, 0), Kept::all(alloc))
}
