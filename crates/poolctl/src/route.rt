//! The subcommands `route` and `route2`.
ghost use Rattle.std.specs.Prelude.{◌≡◌, ◌≤◌, ◌++◌, ◌↔◌, ◌⊎◌, false, true, IfOk, string_bytes};
ghost use Rattle.std.specs.Io.KnownBytes.{Appends};
ghost use Rattle.trace_audit.specs.Wire.{Begins};
ghost use Rattle.poolctl.specs.Routes.{digits_line, route_text};

use crate::lines::push_number;
use crate::outcome::Outcome;
use digit_route::Digits;
use poolctl_words::Route;
use std::alloc::{AllocError, Global};
use trace_audit::{Sink, write_all};

/// Adds the digits of a number, the least first, behind a word.
fn push_digits(text: &mut String, word: &str, digits: Digits, number: u16) -> Result<(), AllocError>
    ensures { IfOk result (λ _. string_bytes text.new ≡ string_bytes text.old ++ digits_line word.now digits number) }
{
    text.push_str(word)?;
    for place in 0..digits.count() {
        let digit = digits.digit(number, place);
        write!(text, " {digit}")?;
    }
    text.push_str("\n")
}

/// How many digits a number has, the digits of the two numbers, the least first, and how many of
/// them the two share.
fn route_text(alloc: Global, digits: Digits, from: u16, owner: u16) -> Result<String, AllocError>
    ensures { IfOk result (λ text. string_bytes text ≡ route_text digits from owner) }
{
    let mut text = String::new(alloc);
    push_number(&mut text, "digits", u64::from(digits.count()))?;
    push_digits(&mut text, "from", digits, from)?;
    push_digits(&mut text, "owner", digits, owner)?;
    push_number(&mut text, "common", u64::from(digits.common(from, owner)))?;
    Ok(text)
}

/// Writes how a desk and the owner of a buffer read in digits, which decides which way the buffer
/// goes home.
#[inline(never)]
pub fn write_route<W: Sink>(alloc: Global, route: Route, sink: &mut W) -> Outcome
    requires { W.has_failed sink.old ≡ false }
    ensures done { result ≡ Outcome.Done →
        Appends (W.contents sink.old) (W.contents sink.new)
        (route_text route.digits route.from route.owner) }
    ensures memory { result ≡ Outcome.NoMemory → sink.new ≡ sink.old }
    ensures begun { result ≡ Outcome.WriteFailed →
        Begins (W.contents sink.old) (W.contents sink.new)
        (route_text route.digits route.from route.owner) }
    ensures known { (result ≡ Outcome.Done) ⊎ (result ≡ Outcome.NoMemory) ⊎ (result ≡ Outcome.WriteFailed) }
    ensures write { (W.has_failed sink.new ≡ true) ↔ (result ≡ Outcome.WriteFailed) }
{
    let Ok(text) = route_text(alloc, route.digits, route.from, route.owner) else {
        return Outcome::NoMemory;
    };
    match write_all(sink, text.as_str().as_bytes()) {
        Ok(()) => Outcome::Done,
        Err(_) => Outcome::WriteFailed,
    }
}
