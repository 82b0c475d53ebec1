//! The header line.
ghost use Rattle.std.specs.Prelude.{◌≡◌, ◌^◌, ◌↔◌, IsTrue, IfSome, IfNone};
ghost use Rattle.region_cut.specs.Classes.{bits_of};
ghost use Rattle.region_cut.specs.declared.profile.Profile.{Profile};
ghost use Rattle.trace_audit.specs.declared.grammar.header.Header.{Header};
ghost use Rattle.trace_audit.specs.Grammar.{profile_text, header_text, IsHeader};
ghost use Rattle.trace_audit.specs.Words.{header_words, AreWords};

use super::words::{cut_at, number, two};
use region_cut::{MAX_CHUNKS, Profile};

/// The numbers of a header line.
#[derive(Clone, Copy, Debug, PartialEq, Eq)]
pub struct Header {
    /// How many bits the number of a desk has, and which classes are used: `pool` or `pool2`.
    pub profile: Profile,
    /// How many desks the floor has, 1 to 64, or to 4,096 for `pool2`.
    pub desks: u32,
    /// How many chunks of 4,096 bytes the region has, at most 1,024.
    pub chunks: u32,
    /// How many bits a digit of a desk's number has, 1 to 6.
    pub width: u32,
}

fn read_profile(word: &[u8]) -> Option<Profile>
    ensures found { IfSome result (λ p. word.now ≡ profile_text p) }
    ensures none { IfNone result ((p : Profile) → word.now ≡ profile_text p → ⊥) }
{
    match word {
        b"pool" => Some(Profile::Pool),
        b"pool2" => Some(Profile::Pool2),
        _ => None,
    }
}

/// How many desks a floor of the first profile may have, whose numbers have 6 bits.
const POOL_DESKS: u32 = 64;

/// The same of the second profile, whose numbers have 12 bits.
const POOL2_DESKS: u32 = 4096;

/// How many bits a digit may have.
const MAX_WIDTH: u32 = 6;

/// How many desks a floor may have.
fn most_desks(profile: Profile) -> u32
    ensures { result ≡ 2 ^ bits_of profile }
{
    match profile {
        Profile::Pool => POOL_DESKS,
        Profile::Pool2 => POOL2_DESKS,
    }
}

fn is_in_range(header: Header) -> bool
    ensures { IsTrue result ↔ IsHeader header }
{
    header.desks >= 1
        && header.desks <= most_desks(header.profile)
        && header.chunks as usize <= MAX_CHUNKS
        && header.width >= 1
        && header.width <= MAX_WIDTH
}

/// The header of these words behind the first.
fn header_numbers(profile: Profile, bytes: &[u8]) -> Option<Header>
    ensures found { IfSome result (λ h. AreWords h × (h.profile ≡ profile) × (bytes.now ≡ header_words h)) }
    ensures none { IfNone result ((h : Header) → AreWords h → bytes.now ≡ header_words h → ⊥) }
{
    let (front, back) = cut_at(bytes, b' ')?;
    let desks = number(front)?;
    let (chunks, width) = two(back, b' ')?;
    Some(Header {
        profile,
        desks,
        chunks,
        width,
    })
}

/// The header that the line spells, with its numbers in their ranges. The line comes without its
/// line feed.
pub(crate) fn read_header(line: &[u8]) -> Option<Header>
    ensures found { IfSome result (λ h. IsHeader h × (line.now ≡ header_text h)) }
    ensures none { IfNone result ((h : Header) → IsHeader h → line.now ≡ header_text h → ⊥) }
{
    let (word, rest) = cut_at(line, b' ')?;
    let profile = read_profile(word)?;
    let header = header_numbers(profile, rest)?;
    if !is_in_range(header) {
        return None;
    }
    Some(header)
}
