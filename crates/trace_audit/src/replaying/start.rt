//! From the header on.
ghost use Rattle.std.specs.Prelude.{◌≡◌, ◌≤◌, ◌*◌, ◌↔◌, ◌++◌, length, false, IfOk, IfSome, IsSome};
ghost use Rattle.region_cut.specs.Limits.{chunk_limit, chunk_size};
ghost use Rattle.trace_audit.specs.FloorCounts.{Opens, scheme_of};
ghost use Rattle.trace_audit.specs.Grammar.{IsHeader};
ghost use Rattle.trace_audit.specs.Replay.{Failures, Replays, ReplaysAudited};
ghost use Rattle.trace_audit.specs.Steps.{Replayed, ReplayedBehind};
ghost use Rattle.trace_audit.specs.Words.{header_line};

use super::drive::drive;
use super::ending::{finish, only};
use super::{End, ReplayError};
use crate::Fault;
use crate::grammar::{Header, read_header};
use crate::held::Held;
use crate::lines::{Next, next_line};
use crate::wire::{Sink, Source};
use digit_route::Digits;
use event_floor::Floor;
use event_floor::laws::floors_tell_counts;
use pool_machine::laws::{requests_are_answered, runs_keep_numbers};
use region_cut::laws::parts_make_the_whole;
use region_cut::{CHUNK, MAX_CHUNKS, Profile, cut};
use slot_chain::NoMemory;
use std::alloc::{AllocError, Global};

/// The limit of each desk's cache in bytes.
const LIMIT: u64 = 4096;

/// The whole report where no good header line stands first.
const BAD_HEADER: &[u8] = b"R17 BadLine 1\n";

/// The whole report where the region or the floor can't be made.
const NO_MEMORY: &[u8] = b"R15 NoMemory\n";

/// A region of so many chunks.
fn region_of(alloc: Global, chunks: u32) -> Result<Vec<u8>, AllocError>
    requires { chunks ≤ chunk_limit }
    ensures { IfOk result (λ region. length region.items ≡ chunks * chunk_size) }
{
    vec![in alloc; 0u8; chunks as usize * CHUNK]
}

/// How the numbers of the header's desks are read.
fn digits_of(header: Header) -> Option<Digits>
    ensures some { IsSome result ↔ ((1 ≤ header.width) × (header.width ≤ 6)) }
    ensures value { IfSome result (λ digits. digits ≡ scheme_of header) }
{
    match header.profile {
        Profile::Pool => Digits::new(header.width),
        Profile::Pool2 => Digits::new2(header.width),
    }
}

/// The floor of the header over the region's chunks.
fn floor_over<'r>(
    alloc: Global,
    region: &'r mut [u8],
    header: Header,
) -> Result<Floor<'r>, NoMemory>
    requires header { IsHeader header }
    requires region { length region.old ≡ header.chunks * chunk_size }
    ensures { IfOk result (λ floor. Opens header floor) }
{
    parts_make_the_whole();
    let Some(digits) = digits_of(header) else {
        unreachable!()
    };
    match cut(alloc, region) {
        Ok(parts) => Floor::new(alloc, parts, header.desks, digits, LIMIT),
        Err(_) => Err(NoMemory),
    }
}

/// Makes the floor of the header over a region of its own, drives it to the end of the trace, and writes what stands
/// behind the answers.
fn on_floor<R: Source, W: Sink>(
    alloc: Global,
    header: Header,
    held: &mut Held,
    reader: &mut R,
    writer: &mut W,
    audits: bool,
) -> Result<(End, Option<Result<(), Fault>>), ReplayError>
    requires header { IsHeader header }
    requires reader_down { R.has_failed reader.old ≡ false }
    requires writer_down { W.has_failed writer.old ≡ false }
    ensures replayed { ReplayedBehind audits (header_line header ++ held.old.items) (R.remaining reader.old)
        (R.remaining reader.new) (W.contents writer.old) (W.contents writer.new) result }
    ensures flags { Failures (R.has_failed reader.new) (W.has_failed writer.new) result }
{
    floors_tell_counts();
    runs_keep_numbers();
    requests_are_answered();
    let Ok(mut region) = region_of(alloc, header.chunks) else {
        return only(writer, NO_MEMORY, End::NoRoom);
    };
    let Ok(mut floor) = floor_over(alloc, region.as_mut_slice(), header) else {
        return only(writer, NO_MEMORY, End::NoRoom);
    };
    let end = drive(alloc, &mut floor, held, reader, writer)?;
    finish(alloc, &floor, writer, end, audits)
}

/// Reads the header, and what follows.
fn play<R: Source, W: Sink>(
    alloc: Global,
    reader: &mut R,
    writer: &mut W,
    audits: bool,
) -> Result<(End, Option<Result<(), Fault>>), ReplayError>
    requires reader_down { R.has_failed reader.old ≡ false }
    requires writer_down { W.has_failed writer.old ≡ false }
    ensures replayed { Replayed audits (R.remaining reader.old) (R.remaining reader.new) (W.contents writer.old)
        (W.contents writer.new) result }
    ensures flags { Failures (R.has_failed reader.new) (W.has_failed writer.new) result }
{
    let mut held = Held::new();
    match next_line(&mut held, reader) {
        Ok(Next::Text(count)) => match read_header(held.front(count)) {
            Some(header) => {
                held.pass(count + 1);
                on_floor(alloc, header, &mut held, reader, writer, audits)
            }
            None => only(writer, BAD_HEADER, End::BadLine(1)),
        },
        Ok(Next::Over) => only(writer, BAD_HEADER, End::BadLine(1)),
        Ok(Next::Bad) => only(writer, BAD_HEADER, End::BadLine(1)),
        Err(_) => Err(ReplayError::Read),
    }
}

/// Reads a trace, drives a floor of its own with it, and writes the report.
///
/// The floor's limit is 4,096 bytes, its region has 4,096 bytes for each chunk of the header. One reply is written for
/// each request line as soon as it is read, so memory does not grow with the trace. Reading stops at the first bad
/// line. Where the floor or its region can't be made for want of memory the answer is `NoRoom`.
///
/// After a failed write nothing more is written. No clause says so, for a sink does not tell how many writes were made:
/// the tests `a_write_fails` and `a_write_takes_nothing` of `trace_uses` count them.
pub fn replay<R: Source, W: Sink>(
    alloc: Global,
    reader: &mut R,
    writer: &mut W,
) -> Result<End, ReplayError>
    requires reader_down { R.has_failed reader.old ≡ false }
    requires writer_down { W.has_failed writer.old ≡ false }
    // The reader's bytes are a trace with this end, and its report was written and nothing else. At an error the
    // answers to all whole lines were written, or a beginning of the report.
    ensures replayed { Replays (R.remaining reader.old) (R.remaining reader.new) (W.contents writer.old)
        (W.contents writer.new) result }
    ensures flags { Failures (R.has_failed reader.new) (W.has_failed writer.new) result }
{
    let (end, _audit) = play(alloc, reader, writer, false)?;
    Ok(end)
}

/// Does what [`replay`] does, audits the floor at the end, and writes the line of the audit behind the closing lines.
///
/// The audit goes over all slots that the floor holds: at home, lent, in caches and in inboxes. It finds nothing wrong:
/// the line is `audit yes`, or `audit no memory` where an allocation of the audit is refused. The second answer is that
/// of the line. It is `None` where no closing lines are written, behind `BadLine(1)` and `NoRoom`.
///
/// The audit takes time and memory in the number of slots of the drawn chunks, and a table of 262,144 bytes.
pub fn replay_audited<R: Source, W: Sink>(
    alloc: Global,
    reader: &mut R,
    writer: &mut W,
) -> Result<(End, Option<Result<(), Fault>>), ReplayError>
    requires reader_down { R.has_failed reader.old ≡ false }
    requires writer_down { W.has_failed writer.old ≡ false }
    // The same, with the line of the audit behind closing lines: it found nothing wrong unless it had no memory. Where
    // there are none, there is no audit.
    ensures replayed { ReplaysAudited (R.remaining reader.old) (R.remaining reader.new) (W.contents writer.old)
        (W.contents writer.new) result }
    ensures flags { Failures (R.has_failed reader.new) (W.has_failed writer.new) result }
{
    play(alloc, reader, writer, true)
}
