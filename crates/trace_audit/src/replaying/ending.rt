//! How a replay ends.
ghost use Rattle.std.specs.Prelude.{◌≡◌, false};
ghost use Rattle.trace_audit.specs.FloorSlots.{ShowsPool};
ghost use Rattle.trace_audit.specs.FloorCounts.{told};
ghost use Rattle.trace_audit.specs.Replay.{error_number, Failures};
ghost use Rattle.trace_audit.specs.Steps.{tail_text, Finishes, TellsAudit, WritesOnly};
ghost use Rattle.trace_audit.specs.Wire.{Writes};

use crate::Fault;
use crate::auditing::audit_floor;
use crate::report::{close, line_of_bad, write_audit};
use crate::wire::{Failed, Sink, write_all};
use event_floor::Floor;
use event_floor::laws::floors_list_slots;
use pool_machine::laws::sound_states;
use std::alloc::Global;
use thiserror::Error;

/// How a trace ended.
#[derive(Clone, Copy, Debug, PartialEq, Eq, Drop)]
pub enum End {
    /// The input ended directly after a line feed, and each line is good.
    Whole,
    /// The line of this number is bad, counted from 1, the header's. Nothing behind it was looked at.
    BadLine(u32),
    /// There is no memory for the region or the floor.
    NoRoom,
}

/// Why a replay broke off.
#[derive(Clone, Copy, Debug, PartialEq, Eq, Drop, Error)]
pub enum ReplayError {
    /// The reader failed.
    #[error("read failed")]
    Read,
    /// The writer failed, or took nothing.
    #[error("write failed")]
    Write,
}

impl ReplayError {
    /// Its number, from 1.
    pub fn number(self) -> u32
        ensures { result ≡ error_number self }
    {
        match self {
            ReplayError::Read => 1,
            ReplayError::Write => 2,
        }
    }
}

/// Writes the line of a bad line, if there is one, and the closing lines.
fn close_behind<W: Sink>(floor: &Floor<'_>, writer: &mut W, end: End) -> Result<(), Failed>
    requires { W.has_failed writer.old ≡ false }
    ensures { Writes (W.contents writer.old) (W.contents writer.new) (W.has_failed writer.new)
        (tail_text (told floor.now) end) result }
{
    match end {
        End::Whole => close(floor, writer),
        End::BadLine(number) => {
            let line = line_of_bad(number);
            write_all(writer, line.as_slice())?;
            close(floor, writer)
        }
        End::NoRoom => Ok(()),
    }
}

/// Audits the floor where that is asked for, and writes the line of the answer. Nothing is known of the floor here, so
/// the answer is one that its lists gave.
fn tell_audit<W: Sink>(
    alloc: Global,
    floor: &Floor<'_>,
    writer: &mut W,
    audits: bool,
) -> Result<Option<Result<(), Fault>>, Failed>
    requires { W.has_failed writer.old ≡ false }
    ensures { TellsAudit audits floor.now (W.contents writer.old) (W.contents writer.new) (W.has_failed writer.new)
        result }
{
    if !audits {
        return Ok(None);
    }
    let answer = audit_floor(alloc, floor);
    write_audit(answer, writer)?;
    Ok(Some(answer))
}

/// Writes what stands behind the answers: the closing lines, and the line of an audit where that is asked for.
pub(crate) fn finish<W: Sink>(
    alloc: Global,
    floor: &Floor<'_>,
    writer: &mut W,
    end: End,
    audits: bool,
) -> Result<(End, Option<Result<(), Fault>>), ReplayError>
    requires down { W.has_failed writer.old ≡ false }
    requires shows { ShowsPool floor.now }
    ensures finished { Finishes audits floor.now end (W.contents writer.old) (W.contents writer.new) result }
    ensures flags { Failures false (W.has_failed writer.new) result }
{
    floors_list_slots();
    sound_states();
    match close_behind(floor, writer, end) {
        Ok(()) => match tell_audit(alloc, floor, writer, audits) {
            Ok(audit) => Ok((end, audit)),
            Err(_) => Err(ReplayError::Write),
        },
        Err(_) => Err(ReplayError::Write),
    }
}

/// Writes one line, and no other.
pub(crate) fn only<W: Sink>(
    writer: &mut W,
    text: &[u8],
    end: End,
) -> Result<(End, Option<Result<(), Fault>>), ReplayError>
    requires { W.has_failed writer.old ≡ false }
    ensures written { WritesOnly text.now end (W.contents writer.old) (W.contents writer.new) result }
    ensures flags { Failures false (W.has_failed writer.new) result }
{
    match write_all(writer, text) {
        Ok(()) => Ok((end, None)),
        Err(_) => Err(ReplayError::Write),
    }
}
