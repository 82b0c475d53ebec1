//! What a desk does with a buffer that isn't its own.
ghost use Rattle.std.specs.Prelude.{◌≡◌, [], ◌∷◌, ◌++◌, MatchOption, IsPermutation};

use digit_route::Cache;
use slot_chain::Buf;

/// Puts a buffer into the cache, or hands it back where the cache may not have it: where it is the
/// desk's own, has an owner out of the profile's range, or was passed on more often than its owner
/// shares digits with the desk.
pub fn offer<'r>(cache: &mut Cache<'r>, buf: Buf<'r>) -> Option<Buf<'r>>
    ensures same { cache.new ≡ record cache.old { items = cache.new.items } }
    ensures items { MatchOption result
        (IsPermutation (cache.old.items ++ buf.entry ∷ []) cache.new.items)
        (λ b. (b ≡ buf.entry) × (cache.new ≡ cache.old)) }
{
    let digits = cache.digits();
    let desk = cache.number();
    let owner = buf.owner();
    let in_range = u32::from(owner) < 1 << digits.profile().bits();
    if owner == desk || !in_range || buf.forwards() > digits.common(owner, desk) {
        return Some(buf);
    }
    cache.put(buf);
    None
}
