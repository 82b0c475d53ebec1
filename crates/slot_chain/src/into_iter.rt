//! A chain gives its buffers one by one, and takes those of an iterator.
ghost use Rattle.std.specs.Prelude.{◌≡◌, ◌++◌};

use crate::buf::Buf;
use crate::chain::Chain;
use std::alloc::AllocError;
use std::fmt;
use std::marker::Model;

/// The buffers of a chain, from its top. In contracts it is the list of those that are still to
/// come; the next one is the last of them. Those that are not taken are dropped with it.
#[derive(Drop)]
pub struct IntoIter<'r> {
    chain: Chain<'r>,
}

impl<'r> Model for IntoIter<'r> {
    ghost use Rattle.std.specs.Prelude.{List};
    ghost use Rattle.slot_chain.specs.Buffer.{Buffer};

    ghost Value = { List Buffer };

    ghost view = { λ i. i.chain };
}

impl<'r> Iterator for IntoIter<'r> {
    type Item = Buf<'r>;

    ghost use Rattle.std.specs.Iterator.{YieldsLast, item_count};

    ghost next_gives = { YieldsLast (λ buffers. buffers) };

    ghost remaining = { item_count (λ buffers. buffers) };

    fn next(&mut self) -> Option<Buf<'r>> {
        self.chain.pop()
    }
}

impl<'r> IntoIterator for Chain<'r> {
    type Item = Buf<'r>;

    type IntoIter = IntoIter<'r>;

    ghost into_iter_gives = { λ chain buffers. buffers ≡ chain };

    fn into_iter(self) -> IntoIter<'r> {
        IntoIter { chain: self }
    }
}

impl<'r> Extend<Buf<'r>> for Chain<'r> {
    ghost extend_gives = { λ old buffers new. new ≡ old ++ buffers };

    // It takes no memory, and refuses nothing itself.
    fn extend<I: IntoIterator<Item = Buf<'r>>>(&mut self, buffers: I) -> Result<(), AllocError> {
        for buf in buffers {
            self.push(buf);
        }
        Ok(())
    }
}

// The buffers are counted, by a walk, and not printed.
impl fmt::Debug for IntoIter<'_> {
    fn fmt<W: fmt::Write>(&self, f: &mut fmt::Formatter<W>) -> fmt::Result {
        write!(f, "IntoIter({} buffers)", self.chain.len())
    }
}
