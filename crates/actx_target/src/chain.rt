//! The scopes that are open at a place, as the innermost two of a function's body: shared by all that stand there.

ghost use Rattle.std.specs.Prelude.{◌≡◌, ◌∷◌, [], IfOk};
ghost use Rattle.actx_target.specs.Chains.{chain_of};

use actx_data::NoMemory;
use std::alloc::Global;
use std::rc::Rc;

/// The numbers of the open scopes, innermost first.
#[cycle(chain)]
#[derive(Drop)]
pub enum Chain {
    Outermost,
    Inside(Rc<Link>),
}

/// A scope and those round it.
#[cycle(chain)]
#[derive(Drop)]
pub struct Link {
    pub number: usize,
    pub outer: Chain,
}

/// The chain with a scope inside.
pub fn inside(alloc: Global, number: usize, outer: Chain) -> Result<Chain, NoMemory>
    ensures { IfOk result (λ c. chain_of c ≡ number ∷ chain_of outer) }
{
    Ok(Chain::Inside(Rc::new(alloc, Link { number, outer })?))
}

/// The same chain once more.
pub fn again(chain: &Chain) -> Result<Chain, NoMemory>
    ensures { IfOk result (λ c. chain_of c ≡ chain_of chain.now) }
{
    match chain {
        Chain::Outermost => Ok(Chain::Outermost),
        Chain::Inside(link) => Ok(Chain::Inside(link.clone()?)),
    }
}
