//! The chain below a node.
ghost use Rattle.std.specs.Prelude.{◌≡◌, ◌≢◌, [], Some, None};
ghost use Rattle.slot_chain.specs.Chains.{buffers_of, held, is_list};

use crate::chain::Chain;
use crate::link::Link;
use crate::node::Node;
use std::marker::Model;

// The chain below a node that is in a list. In contracts it is that chain, or `None` where it was moved
// out and its word was left: so a node that leaves a list isn't written to.
#[cycle(chain)]
pub(crate) struct Below<'r> {
    top: Link<Node<'r>>,
}

impl<'r> Model for Below<'r> {
    ghost use Rattle.std.specs.Prelude.{List, Option, length};
    ghost use Rattle.slot_chain.specs.Buffer.{Buffer};

    ghost Value = { Option (List Buffer) };

    ghost use Rattle.slot_chain.specs.Chains.{below_of, top_is_listed, held};

    ghost view = { λ a. below_of a.top };

    ghost invariant = { λ a. top_is_listed a.top };

    ghost size = { λ b. length (held b) };

    ghost use Rattle.std.proofs.Common.{arith, length-append};

    ghost size_decreases = { λ a h. Prim.grind (arith, length-append) };
}

impl<'r> Below<'r> {
    /// An empty chain.
    pub(crate) fn new() -> Below<'r>
        ensures { result ≡ Some [] }
    {
        Below { top: Link::empty() }
    }

    /// Puts a chain there, where nothing is below.
    #[tactic(auto, using(crate::proofs::Tops::unheld_is_none, crate::proofs::Tops::list_is_there))]
    #[inline]
    pub(crate) fn set(&mut self, chain: Chain<'r>)
        requires { held self.old ≡ [] }
        ensures { self.new ≡ Some chain.entry }
    {
        self.top.set(chain.into_top());
    }

    /// Moves the chain out, and leaves its word.
    #[tactic(auto, using(crate::proofs::Tops::is_list_there, crate::proofs::Tops::none_is_unheld))]
    #[inline]
    pub(crate) fn leave(&mut self) -> Chain<'r>
        requires { self.old ≢ None }
        ensures moved { self.old ≡ Some result }
        ensures left { held self.new ≡ [] }
    {
        Chain {
            top: self.top.leave(),
        }
    }

    /// The chain.
    #[tactic(auto, using(crate::proofs::Tops::is_list_there))]
    #[inline]
    pub(crate) fn into_chain(self) -> Chain<'r>
        requires { self ≢ None }
        ensures { self.entry ≡ Some result }
    {
        let Below { top } = self;
        Chain { top }
    }

    /// The chain, to be looked at.
    #[tactic(auto, using(crate::proofs::Tops::is_list_there))]
    pub(crate) fn get(&self) -> &Link<Node<'r>>
        requires { self.now ≢ None }
        ensures list { self.now ≡ Some (buffers_of result.now) }
        ensures listed { is_list result.now }
    {
        &self.top
    }

    /// Lets go of the word alone.
    pub(crate) fn forget(self) {
        let Below { top } = self;
        top.forget();
    }

    /// Lets it go where nothing is below.
    #[tactic(auto, using(crate::proofs::Tops::unheld_is_none))]
    #[inline]
    pub(crate) fn close(self)
        requires { held self ≡ [] }
    {
        let Below { top } = self;
        top.close();
    }
}
