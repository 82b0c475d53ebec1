//! What each subcommand does.
ghost use Rattle.std.specs.Prelude.{◌≡◌, ◌↔◌, ◌⊎◌, false, true, map, string_bytes};
ghost use Rattle.trace_audit.specs.declared.replaying.ending.ReplayError.TheVariants.{Read};
ghost use Rattle.poolctl_words.specs.Asked.{AreGood};
ghost use Rattle.poolctl.specs.Commands.{AsksFor, BeginsAll, BeginsClasses, BreaksOff, IsWorkload, TellsFault};
ghost use Rattle.poolctl.specs.Commands.{WritesAll, WritesUpTo};

use crate::classes::write_classes;
use crate::outcome::{Outcome, audited, replayed};
use crate::route::write_route;
use crate::work::run_work;
use poolctl_words::{Asked, Unread, read};
use std::alloc::Global;
use std::sync::Wait;
use std::thread::Threads;
use std::time::Clock;
use trace_audit::{Sink, Source, replay, replay_audited};

/// Does what the words ask for. The program's own name stands first among them.
///
/// Nothing is read from the source but by `replay`, and nothing is written after a failed write.
/// Words that are refused, or that ask for help, are answered with the text for standard error. An audit of a report
/// that doesn't say yes had no memory, and says so behind the whole report. Only a workload starts threads; all have
/// ended when the call returns.
pub fn command<R: Source, W: Sink, H: Threads + Wait + Clock + Sync>(
    rt: &H,
    alloc: Global,
    words: &[String],
    source: &mut R,
    sink: &mut W,
) -> Outcome
    requires source_down { R.has_failed source.old ≡ false }
    requires sink_down { W.has_failed sink.old ≡ false }
    ensures read { (R.has_failed source.new ≡ true) ↔ (result ≡ Outcome.ReadFailed) }
    ensures write { (W.has_failed sink.new ≡ true) ↔ (result ≡ Outcome.WriteFailed) }
    // Where the command is done, all that the words ask for was written, and nothing else.
    ensures done { result ≡ Outcome.Done →
        AsksFor (map string_bytes words.now) (λ asked.
        WritesAll asked (R.remaining source.old) (R.remaining source.new) (W.contents sink.old)
        (W.contents sink.new)) }
    ensures stopped { result ≡ Outcome.Stopped →
        AsksFor (map string_bytes words.now) (λ asked.
        WritesUpTo asked (R.remaining source.old) (R.remaining source.new) (W.contents sink.old)
        (W.contents sink.new)) }
    ensures audit { result ≡ Outcome.AuditFailed →
        AsksFor (map string_bytes words.now) (λ asked.
        TellsFault asked (R.remaining source.old) (R.remaining source.new) (W.contents sink.old)
        (W.contents sink.new)) }
    // Where a write failed, a beginning of what the words ask for was written, and nothing else.
    ensures begun { result ≡ Outcome.WriteFailed →
        AsksFor (map string_bytes words.now) (λ asked.
        BeginsAll asked (R.remaining source.old) (R.remaining source.new) (W.contents sink.old)
        (W.contents sink.new)) }
    // Where a read failed, it was a replay's: the answers to all whole lines were written, and nothing else.
    ensures broken_off { result ≡ Outcome.ReadFailed →
        AsksFor (map string_bytes words.now) (λ asked.
        BreaksOff asked (R.remaining source.old) (R.remaining source.new) (W.contents sink.old)
        (W.contents sink.new) Read) }
    // For want of a thread or of memory nothing is read; nothing is written either, except that memory may be refused
    // behind some lines of the classes.
    ensures thread { result ≡ Outcome.NoThread →
        AsksFor (map string_bytes words.now) IsWorkload × (source.new ≡ source.old) × (sink.new ≡ sink.old) }
    ensures memory { result ≡ Outcome.NoMemory →
        (source.new ≡ source.old) × ((sink.new ≡ sink.old) ⊎ AsksFor (map string_bytes words.now) (λ asked.
        BeginsClasses asked (W.contents sink.old) (W.contents sink.new))) }
    // Words are refused only where they aren't good, and then nothing is read or written.
    ensures refused { (text : _) → result ≡ Outcome.Refused text →
        (AreGood (map string_bytes words.now) → ⊥) × (source.new ≡ source.old) × (sink.new ≡ sink.old) }
{
    match read(alloc, words) {
        Ok(Asked::Classes(profile)) => write_classes(alloc, profile, sink),
        Ok(Asked::Route(route)) => write_route(alloc, route, sink),
        Ok(Asked::Replay) => replayed(replay(alloc, source, sink)),
        Ok(Asked::AuditedReplay) => audited(replay_audited(alloc, source, sink)),
        Ok(Asked::Work(work)) => run_work(rt, alloc, &work, sink),
        Err(Unread::Memory) => Outcome::NoMemory,
        Err(Unread::Refused(text)) => Outcome::Refused(text),
    }
}
