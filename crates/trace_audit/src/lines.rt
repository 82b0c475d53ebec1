//! Lines taken off a source, one after the other.
//!
//! Nothing more is read than what the next line wants: a read is made only while neither a line feed nor 65 bytes
//! without one are held.
ghost use Rattle.std.specs.Prelude.{◌≡◌, ℕ, ◌<◌, ◌≤◌, ◌+◌, List, [], ◌∷◌, ◌++◌, length, true, false, IfOk, IfErr};
ghost use Rattle.std.specs.Prelude.{IsTrue, IfSome, IfNone};
ghost use Rattle.std.specs.Io.KnownBytes.{Consumes, IsAtEnd, Keeps};
ghost use Rattle.trace_audit.specs.Words.{Lacks};
ghost use Rattle.trace_audit.specs.Limits.{held_limit};
ghost use Rattle.trace_audit.specs.Replay.{IsPartial};
ghost use Rattle.trace_audit.specs.Steps.{IsFirstLine, Took};

use crate::grammar::cut_at;
use crate::held::{HELD_LIMIT, Held};
use crate::wire::{Failed, Source};

/// What stands next in a trace.
#[derive(Clone, Copy, Drop)]
pub(crate) enum Next {
    /// A line of so many bytes before its line feed, which stands first in what is held.
    Text(usize),
    /// The end, directly after a line feed.
    Over,
    /// A line that is too long, or that the input ends within.
    Bad,
}

/// How many bytes the first line has before its line feed, if all of it is held.
fn first_line(held: &Held) -> Option<usize>
    ensures some { IfSome result (λ count. IsFirstLine held.now.items count) }
    ensures none { IfNone result (Lacks 10 held.now.items) }
{
    let (line, _rest) = cut_at(held.as_slice(), b'\n')?;
    Some(line.len())
}

/// Reads once. False at the end of the input.
fn refill<R: Source>(held: &mut Held, reader: &mut R) -> Result<bool, Failed>
    requires room { length held.old.items < held_limit }
    requires down { R.has_failed reader.old ≡ false }
    ensures more { IfOk result (λ more.
        IsTrue more → (given : List ℕ) × (0 < length given)
        × Consumes (R.remaining reader.old) (R.remaining reader.new) given
        × (held.new.items ≡ held.old.items ++ given)) }
    ensures end { IfOk result (λ more.
        (more ≡ false) → Consumes (R.remaining reader.old) (R.remaining reader.new) []
        × IsAtEnd (R.remaining reader.new) × (held.new.items ≡ held.old.items)) }
    ensures ok { IfOk result (λ _. R.has_failed reader.new ≡ false) }
    ensures err { IfErr result (λ _.
        (R.has_failed reader.new ≡ true) × Keeps (R.remaining reader.old) (R.remaining reader.new)
        × (held.new.items ≡ held.old.items)) }
{
    let mut piece = [0u8; HELD_LIMIT];
    let room = HELD_LIMIT - held.len();
    match reader.read(&mut piece[..room])? {
        0 => Ok(false),
        count => {
            held.add(&piece[..count]);
            Ok(true)
        }
    }
}

/// Looks for the next line, reading as far as it must.
pub(crate) fn next_line<R: Source>(held: &mut Held, reader: &mut R) -> Result<Next, Failed>
    requires { R.has_failed reader.old ≡ false }
    ensures ok { IfOk result (λ next.
        (given : List ℕ) × Consumes (R.remaining reader.old) (R.remaining reader.new) given
        × Took (held.old.items ++ given) held.new.items (IsAtEnd (R.remaining reader.new)) next) }
    ensures down { IfOk result (λ _. R.has_failed reader.new ≡ false) }
    ensures err { IfErr result (λ _.
        (given : List ℕ) × Consumes (R.remaining reader.old) (R.remaining reader.new) given
        × (held.new.items ≡ held.old.items ++ given) × IsPartial held.new.items) }
    ensures up { IfErr result (λ _. R.has_failed reader.new ≡ true) }
{
    'reading: loop {
        if let Some(count) = first_line(held) {
            return Ok(Next::Text(count));
        }
        if held.is_full() {
            return Ok(Next::Bad);
        }
        if !refill(held, reader)? {
            return Ok(if held.is_empty() {
                Next::Over
            } else {
                Next::Bad
            });
        }
    }
}

/// Whether the input ends here. Asked where no further line may stand: one byte is enough to tell.
pub(crate) fn is_over<R: Source>(held: &mut Held, reader: &mut R) -> Result<bool, Failed>
    requires { R.has_failed reader.old ≡ false }
    ensures more { IfOk result (λ over.
        (over ≡ false) → (given : List ℕ) × Consumes (R.remaining reader.old) (R.remaining reader.new) given
        × (0 < length (held.old.items ++ given))) }
    ensures over { IfOk result (λ over.
        IsTrue over → Consumes (R.remaining reader.old) (R.remaining reader.new) [] × IsAtEnd (R.remaining reader.new)
        × (held.old.items ≡ [])) }
    ensures down { IfOk result (λ _. R.has_failed reader.new ≡ false) }
    ensures err { IfErr result (λ _.
        (R.has_failed reader.new ≡ true) × Keeps (R.remaining reader.old) (R.remaining reader.new)
        × (held.old.items ≡ [])) }
{
    if !held.is_empty() {
        return Ok(false);
    }
    let more = refill(held, reader)?;
    Ok(!more)
}
