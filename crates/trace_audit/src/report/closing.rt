//! The closing lines: what each desk has, and the sums over all of them.
ghost use Rattle.std.specs.Prelude.{◌≡◌, ◌≤◌, ◌<◌, ◌+◌, ◌++◌, length, false};
ghost use Rattle.arrayvec.specs.ArrayVec.{array_vec_len};
ghost use Rattle.event_floor.specs.Floors.{desk_count};
ghost use Rattle.trace_audit.specs.FloorCounts.{counts_at, end_line, tally_lines, told};
ghost use Rattle.trace_audit.specs.Report.{counts_text, desk_line, total};
ghost use Rattle.trace_audit.specs.Wire.{Writes};

use super::text::{Line, push_number, push_text};
use crate::wire::{Failed, Sink, write_all};
use event_floor::Floor;

/// How many slots are at home, in a cache and in an inbox.
#[derive(Clone, Copy, Debug, Default, PartialEq, Eq, Drop)]
pub(crate) struct DeskCounts {
    pub home: u64,
    pub cached: u64,
    pub queued: u64,
}

impl DeskCounts {
    ghost use Rattle.trace_audit.specs.FloorCounts.{are_zero, plus};

    /// Whether each of the three is 0.
    fn is_zero(self) -> bool
        ensures { result ≡ are_zero self }
    {
        self.home == 0 && self.cached == 0 && self.queued == 0
    }

    /// Each of the three, added. A sum stops at the greatest u64.
    fn plus(self, other: DeskCounts) -> DeskCounts
        ensures { result ≡ plus self other }
    {
        DeskCounts {
            home: self.home.saturating_add(other.home),
            cached: self.cached.saturating_add(other.cached),
            queued: self.queued.saturating_add(other.queued),
        }
    }
}

/// What one desk has.
fn counts_of(floor: &Floor<'_>, desk: u32) -> DeskCounts
    requires { desk < desk_count floor.now }
    ensures { result ≡ counts_at floor.now desk }
{
    let (home, cached, queued) = floor.counts(desk);
    DeskCounts {
        home,
        cached,
        queued,
    }
}

/// The sum over all desks.
fn total(floor: &Floor<'_>) -> DeskCounts
    ensures { result ≡ total (told floor.now).desks }
{
    let desks = floor.desk_count();
    let mut sum = DeskCounts::default();
    for desk in 0..desks {
        sum = sum.plus(counts_of(floor, desk));
    }
    sum
}

/// The line of a desk; nothing where each of its counts is 0.
fn line_of_desk(desk: u32, counts: DeskCounts) -> Line
    ensures { result.items ≡ desk_line desk counts }
{
    let mut line = Line::new();
    if !counts.is_zero() {
        push_text(&mut line, b"desk ");
        push_number(&mut line, u64::from(desk));
        push_counts(&mut line, counts);
    }
    line
}

/// The last line.
fn line_of_end(floor: &Floor<'_>) -> Line
    ensures { result.items ≡ end_line (told floor.now) }
{
    let mut line = Line::new();
    push_text(&mut line, b"end chunks ");
    push_number(&mut line, floor.drawn_count());
    push_text(&mut line, b" lent ");
    push_number(&mut line, floor.lent_count());
    push_counts(&mut line, total(floor));
    line
}

/// Adds the three counts, with their names, and ends the line.
fn push_counts(line: &mut Line, counts: DeskCounts)
    requires { array_vec_len line.old ≤ 60 }
    ensures { line.new.items ≡ line.old.items ++ counts_text counts }
{
    push_text(line, b" home ");
    push_number(line, counts.home);
    push_text(line, b" cached ");
    push_number(line, counts.cached);
    push_text(line, b" queued ");
    push_number(line, counts.queued);
    push_text(line, b"\n");
}

/// Writes the closing lines. Takes no memory, and time in the number of the floor's slots.
pub(crate) fn close<W: Sink>(floor: &Floor<'_>, writer: &mut W) -> Result<(), Failed>
    requires { W.has_failed writer.old ≡ false }
    ensures { Writes (W.contents writer.old) (W.contents writer.new) (W.has_failed writer.new)
        (tally_lines (told floor.now)) result }
{
    let desks = floor.desk_count();
    for desk in 0..desks {
        let line = line_of_desk(desk, counts_of(floor, desk));
        write_all(writer, line.as_slice())?;
    }
    let line = line_of_end(floor);
    write_all(writer, line.as_slice())
}
