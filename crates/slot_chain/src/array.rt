//! An array of pointers to buffers, or none.
ghost use Rattle.std.specs.Prelude.{◌≡◌, ◌≢◌, ◌↔◌, [], ◌∷◌, ◌++◌, IsTrue, MatchOption, None, length};
ghost use Rattle.slot_chain.specs.Counts.{capped};
ghost use Rattle.slot_chain.specs.Magazines.{named_in, HasPlace};

use crate::buf::Buf;

/// Puts a buffer into the array, where it has a place; else hands it back.
#[inline]
pub(crate) fn offer<'r>(array: &mut Option<Vec<Buf<'r>>>, buf: Buf<'r>) -> Option<Buf<'r>>
    ensures { MatchOption result
        (HasPlace array.old × (named_in array.new ≡ named_in array.old ++ buf.entry ∷ []))
        (λ b. (b ≡ buf.entry) × (array.new ≡ array.old) × (HasPlace array.old → ⊥)) }
{
    match array {
        None => Some(buf),
        Some(array) => {
            if array.len() >= array.capacity() {
                return Some(buf);
            }
            array.push_reserved(buf);
            None
        }
    }
}

/// Takes the last buffer of an array.
#[inline]
pub(crate) fn pop_named<'r>(array: &mut Option<Vec<Buf<'r>>>) -> Option<Buf<'r>>
    ensures named { MatchOption result ((named_in array.old ≡ []) × (named_in array.new ≡ []))
        (λ b. named_in array.old ≡ named_in array.new ++ b ∷ []) }
    ensures place { MatchOption result (HasPlace array.new → HasPlace array.old) (λ _. HasPlace array.new) }
{
    match array {
        None => None,
        Some(array) => array.pop(),
    }
}

/// Takes an array out, where it names a buffer.
pub(crate) fn take_named<'r>(array: &mut Option<Vec<Buf<'r>>>) -> Option<Vec<Buf<'r>>>
    ensures { MatchOption result ((named_in array.old ≡ []) × (array.new ≡ array.old))
        (λ a. (a.items ≢ []) × (named_in array.old ≡ a.items) × (array.new ≡ None)) }
{
    if names_none(array) {
        return None;
    }
    array.take()
}

/// Whether an array names no buffer, or isn't there.
pub(crate) fn names_none(array: &Option<Vec<Buf<'_>>>) -> bool
    ensures { IsTrue result ↔ (named_in array.now ≡ []) }
{
    match array {
        None => true,
        Some(array) => array.is_empty(),
    }
}

/// How many buffers an array names.
pub(crate) fn len_of(array: &Option<Vec<Buf<'_>>>) -> u64
    ensures { result ≡ capped (length (named_in array.now)) }
{
    match array {
        None => 0,
        Some(array) => array.len() as u64,
    }
}

/// The buffers that an array names, to be looked at.
pub(crate) fn slice_of<'a, 'r>(array: &'a Option<Vec<Buf<'r>>>) -> &'a [Buf<'r>]
    ensures { result.now ≡ named_in array.now }
{
    match array {
        None => Default::default(),
        Some(array) => array.as_slice(),
    }
}
