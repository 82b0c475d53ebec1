//! All lines behind the header.
ghost use Rattle.std.specs.Prelude.{◌≡◌, false};
ghost use Rattle.trace_audit.specs.Replay.{Failures};
ghost use Rattle.trace_audit.specs.Steps.{Driven};

use super::turn::{Turn, one_line};
use super::{End, ReplayError};
use crate::held::Held;
use crate::lines::is_over;
use crate::report::Line;
use crate::wire::{Sink, Source};
use event_floor::Floor;
use std::alloc::Global;

/// The number of the first line that is one too many. The header is line 1.
const TOO_MANY: u32 = 1_000_001;

/// Reads request lines to the end of the trace, and answers each.
pub(crate) fn drive<R: Source, W: Sink>(
    alloc: Global,
    floor: &mut Floor<'_>,
    held: &mut Held,
    reader: &mut R,
    writer: &mut W,
) -> Result<End, ReplayError>
    requires reader_down { R.has_failed reader.old ≡ false }
    requires writer_down { W.has_failed writer.old ≡ false }
    ensures driven { Driven (R.remaining reader.old) (R.remaining reader.new) held.old.items floor.old floor.new
        (W.contents writer.old) (W.contents writer.new) result }
    ensures flags { Failures (R.has_failed reader.new) (W.has_failed writer.new) result }
{
    let mut line = Line::new();
    for number in 2..TOO_MANY {
        match one_line(alloc, floor, held, &mut line, reader, writer)? {
            Turn::Answered => {}
            Turn::Over => return Ok(End::Whole),
            Turn::Bad => return Ok(End::BadLine(number)),
        }
    }
    match is_over(held, reader) {
        Ok(true) => Ok(End::Whole),
        Ok(false) => Ok(End::BadLine(TOO_MANY)),
        Err(_) => Err(ReplayError::Read),
    }
}
