//! One line of a trace.
ghost use Rattle.std.specs.Prelude.{◌≡◌, ℕ, List, ◌++◌, false};
ghost use Rattle.std.specs.Io.KnownBytes.{Consumes, IsAtEnd};
ghost use Rattle.event_floor.specs.headline.Headline.{Applies};
ghost use Rattle.trace_audit.specs.Replay.{Failures};
ghost use Rattle.trace_audit.specs.Steps.{Turned};

use super::ReplayError;
use crate::grammar::read_request;
use crate::held::Held;
use crate::lines::{Next, next_line};
use crate::report::{Line, set_answer};
use crate::wire::{Sink, Source, write_all};
use event_floor::{Floor, Refusal, Reply, Request};
use std::alloc::Global;

/// What one line came to.
#[derive(Clone, Copy, Debug, PartialEq, Eq, Drop)]
pub(crate) enum Turn {
    /// It is a request, which was answered.
    Answered,
    /// There is none: the input is over.
    Over,
    /// It is bad.
    Bad,
}

/// Hands the request to the floor.
fn answer_of(alloc: Global, floor: &mut Floor<'_>, request: Request) -> Result<Reply, Refusal>
    ensures { Applies floor.old request result floor.new }
{
    floor.apply(alloc, request)
}

/// Reads one line, and answers it where it is a request. `line` is for the answer; what it was doesn't matter.
pub(crate) fn one_line<R: Source, W: Sink>(
    alloc: Global,
    floor: &mut Floor<'_>,
    held: &mut Held,
    line: &mut Line,
    reader: &mut R,
    writer: &mut W,
) -> Result<Turn, ReplayError>
    requires reader_down { R.has_failed reader.old ≡ false }
    requires writer_down { W.has_failed writer.old ≡ false }
    ensures turned { (given : List ℕ) × Consumes (R.remaining reader.old) (R.remaining reader.new) given
        × Turned (held.old.items ++ given) held.new.items (IsAtEnd (R.remaining reader.new)) floor.old floor.new
        (W.contents writer.old) (W.contents writer.new) result }
    ensures flags { Failures (R.has_failed reader.new) (W.has_failed writer.new) result }
{
    match next_line(held, reader) {
        Ok(Next::Text(count)) => match read_request(held.front(count)) {
            Some(request) => {
                held.pass(count + 1);
                let answer = answer_of(alloc, floor, request);
                set_answer(line, answer);
                match write_all(writer, line.as_slice()) {
                    Ok(()) => Ok(Turn::Answered),
                    Err(_) => Err(ReplayError::Write),
                }
            }
            None => Ok(Turn::Bad),
        },
        Ok(Next::Over) => Ok(Turn::Over),
        Ok(Next::Bad) => Ok(Turn::Bad),
        Err(_) => Err(ReplayError::Read),
    }
}
