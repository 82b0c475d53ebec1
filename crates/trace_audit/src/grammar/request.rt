//! The request lines.
ghost use Rattle.std.specs.Prelude.{◌≡◌, ℕ, IfSome, IfNone};
ghost use Rattle.pool_machine.specs.declared.request.Request.{Request};
ghost use Rattle.trace_audit.specs.declared.grammar.request.Verb.{Verb};
ghost use Rattle.trace_audit.specs.Words.{verb_text, verb_of, words_of};
ghost use Rattle.trace_audit.specs.Grammar.{spelling, IsRequest};

use super::words::{cut_at, number, two};
use event_floor::Request;

/// The first word of a request line.
#[derive(Clone, Copy, Debug, PartialEq, Eq, Drop)]
pub(crate) enum Verb {
    Adopts,
    Retires,
    Claims,
    Allocs,
    Frees,
    Sends,
    Links,
    Takes,
}

fn read_verb(word: &[u8]) -> Option<Verb>
    ensures found { IfSome result (λ v. word.now ≡ verb_text v) }
    ensures none { IfNone result ((v : Verb) → word.now ≡ verb_text v → ⊥) }
{
    match word {
        b"adopt" => Some(Verb::Adopts),
        b"retire" => Some(Verb::Retires),
        b"claim" => Some(Verb::Claims),
        b"alloc" => Some(Verb::Allocs),
        b"free" => Some(Verb::Frees),
        b"send" => Some(Verb::Sends),
        b"link" => Some(Verb::Links),
        b"take" => Some(Verb::Takes),
        _ => None,
    }
}

/// The desk and the slot of a request to free, as `7 0.3`.
fn freed(words: &[u8]) -> Option<(u32, (u32, u32))>
    ensures found { IfSome result (λ f. IsRequest (Request.Free f.0 f.1)
        × (words.now ≡ words_of (Request.Free f.0 f.1))) }
    ensures none { IfNone result
        ((a : ℕ) (s : ℕ × ℕ) → IsRequest (Request.Free a s) → words.now ≡ words_of (Request.Free a s) → ⊥) }
{
    let (front, back) = cut_at(words, b' ')?;
    let desk = number(front)?;
    let slot = two(back, b'.')?;
    Some((desk, slot))
}

/// The request of this verb that the words behind it spell.
fn request_of(verb: Verb, words: &[u8]) -> Option<Request>
    ensures found { IfSome result (λ r. IsRequest r × (verb_of r ≡ verb) × (words.now ≡ words_of r)) }
    ensures none { IfNone result ((r : Request) → IsRequest r → verb_of r ≡ verb → words.now ≡ words_of r → ⊥) }
{
    match verb {
        Verb::Adopts => {
            let (desk, worker) = two(words, b' ')?;
            Some(Request::Adopt(desk, worker))
        }
        Verb::Retires => {
            let desk = number(words)?;
            Some(Request::Retire(desk))
        }
        Verb::Claims => {
            let (desk, class) = two(words, b' ')?;
            Some(Request::Claim(desk, class))
        }
        Verb::Allocs => {
            let (desk, size) = two(words, b' ')?;
            Some(Request::Alloc(desk, size))
        }
        Verb::Frees => {
            let (desk, slot) = freed(words)?;
            Some(Request::Free(desk, slot))
        }
        Verb::Sends => {
            let (desk, to) = two(words, b' ')?;
            Some(Request::Send(desk, to))
        }
        Verb::Links => {
            let batch = number(words)?;
            Some(Request::Link(batch))
        }
        Verb::Takes => {
            let desk = number(words)?;
            Some(Request::Take(desk))
        }
    }
}

/// The request that the line spells. The line comes without its line feed.
pub(crate) fn read_request(line: &[u8]) -> Option<Request>
    ensures found { IfSome result (λ r. IsRequest r × (line.now ≡ spelling r)) }
    ensures none { IfNone result ((r : Request) → IsRequest r → line.now ≡ spelling r → ⊥) }
{
    let (word, rest) = cut_at(line, b' ')?;
    let verb = read_verb(word)?;
    request_of(verb, rest)
}
