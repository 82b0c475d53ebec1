//! What a line says of itself ahead of its message.

ghost use Rattle.std.specs.Prelude.{◌≡◌, List, ℕ, None, IfSome};
ghost use Rattle.syslog_lines.specs.Heads.{IsHeadOf};
ghost use Rattle.syslog_lines.specs.Priorities.{BeginsWith};

use crate::priority::Priority;
use crate::rfc3164::read_local;
use crate::rfc5424::read_rfc5424;

/// A line, taken apart. Each text is a part of the line, byte for byte.
#[derive(Clone, Copy, Debug, Drop)]
pub struct Head<'a> {
    /// The priority.
    pub priority: Option<Priority>,
    /// The time, as it is written.
    pub time: Option<&'a [u8]>,
    /// The host.
    pub host: Option<&'a [u8]>,
    /// The program.
    pub app: Option<&'a [u8]>,
    /// Its process.
    pub procid: Option<&'a [u8]>,
    /// The kind of message.
    pub msgid: Option<&'a [u8]>,
    /// The structured data, with its brackets.
    pub data: Option<&'a [u8]>,
    /// The rest of the line.
    pub message: &'a [u8],
}

impl<'a> Head<'a> {
    /// A line that says nothing of itself.
    #[tactic(auto, using(crate::proofs::Parts::parts))]
    pub fn bare(message: &'a [u8]) -> Head<'a>
        ensures parts { IsHeadOf message.entry.now result }
        ensures value { result ≡ record {
          priority = None;
          time = None;
          host = None;
          app = None;
          procid = None;
          msgid = None;
          «data» = None;
          message = message.entry;
        } }
    {
        Head {
            priority: None,
            time: None,
            host: None,
            app: None,
            procid: None,
            msgid: None,
            data: None,
            message,
        }
    }

    /// Takes a line apart: by RFC 5424 where a priority and its version stand ahead, and else by RFC 3164, also
    /// without a priority and with the times that `rsyslog` writes into files. Where it is neither, all that
    /// follows a priority is message.
    #[tactic(auto, using(crate::proofs::Parts::parts))]
    pub fn read(line: &'a [u8]) -> Head<'a>
        ensures parts { IsHeadOf line.entry.now result }
        ensures priority { IfSome result.priority (λ p. (rest : List ℕ) × BeginsWith line.entry.now p.0 rest) }
    {
        match Priority::read(line) {
            Some((priority, rest)) => Head {
                priority: Some(priority),
                ..read_behind(rest)
            },
            None => read_local_or_none(line),
        }
    }
}

// What stands behind a priority.
fn read_behind(rest: &[u8]) -> Head<'_>
    ensures parts { IsHeadOf rest.now result }
{
    match read_rfc5424(rest) {
        Some(head) => head,
        None => read_local_or_none(rest),
    }
}

// A line without a priority.
fn read_local_or_none(line: &[u8]) -> Head<'_>
    ensures parts { IsHeadOf line.now result }
    ensures none { result.priority ≡ None }
{
    match read_local(line) {
        Some(head) => head,
        None => Head::bare(line),
    }
}
