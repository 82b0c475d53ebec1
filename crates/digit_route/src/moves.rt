//! Moves of buffers from magazine to magazine.
ghost use Rattle.std.specs.Prelude.{◌≡◌, ◌^◌, ◌++◌, length, IsPermutation};
ghost use Rattle.std.specs.List.{flat_map};
ghost use Rattle.arrayvec.specs.ArrayVec.{array_vec_len};
ghost use Rattle.slot_chain.specs.Counts.{capped};
ghost use Rattle.digit_route.specs.Rows.{IsByDigit, Splits};

use crate::Digits;
use crate::magazines::{Magazines, push_at};
use slot_chain::Magazine;

/// Moves each buffer of `magazine` into the magazine of its owner's digit `round`, and counts them.
pub(crate) fn scatter<'r>(
    magazines: &mut Magazines<'r>,
    digits: Digits,
    round: u32,
    magazine: Magazine<'r>,
) -> u64
    requires { array_vec_len magazines.old ≡ 2 ^ digits.width }
    ensures by_digit { IsByDigit digits round magazines.old.items → IsByDigit digits round magazines.new.items }
    ensures items { IsPermutation (flat_map (λ x. x) magazines.old.items ++ magazine.entry)
        (flat_map (λ x. x) magazines.new.items) }
    ensures count { result ≡ capped (length magazine.entry) }
    ensures len { array_vec_len magazines.new ≡ array_vec_len magazines.old }
{
    let mut magazine = magazine;
    let mut moved = 0u64;
    while let Some(item) = magazine.pop() {
        let k = digits.digit(item.owner(), round);
        push_at(magazines, k as usize, item);
        moved = moved.saturating_add(1);
    }
    moved
}

/// Moves all buffers of `from` into the magazines of their owners' digits `round`.
pub(crate) fn scatter_all<'r>(
    magazines: &mut Magazines<'r>,
    digits: Digits,
    round: u32,
    from: Magazines<'r>,
)
    requires { array_vec_len magazines.old ≡ 2 ^ digits.width }
    ensures by_digit { IsByDigit digits round magazines.old.items → IsByDigit digits round magazines.new.items }
    ensures items { IsPermutation (flat_map (λ x. x) magazines.old.items ++ flat_map (λ x. x) from.entry.items)
        (flat_map (λ x. x) magazines.new.items) }
    ensures len { array_vec_len magazines.new ≡ array_vec_len magazines.old }
{
    let mut from = from;
    while let Some(magazine) = from.pop() {
        let _moved = scatter(magazines, digits, round, magazine);
    }
}

/// Parts a magazine: the buffers whose owners share more than `near` digits with `t`, and the others.
pub(crate) fn split<'r>(
    magazine: Magazine<'r>,
    digits: Digits,
    near: u32,
    t: u16,
) -> (Magazine<'r>, Magazine<'r>)
    ensures { Splits digits near t magazine.entry result.0 result.1 }
{
    let mut magazine = magazine;
    let mut nearer = Magazine::new();
    let mut others = Magazine::new();
    while let Some(item) = magazine.pop() {
        if digits.common(item.owner(), t) > near {
            nearer.push(item);
        } else {
            others.push(item);
        }
    }
    (nearer, others)
}
