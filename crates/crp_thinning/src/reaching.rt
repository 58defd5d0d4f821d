//! A family of chains that reaches a number, at a position that is changed in place.
ghost use Rattle.std.specs.Prelude.{◌≡◌, ◌≤◌, ◌+◌, ◌*◌, ◌++◌, ℕ, List, IfSome, length};
ghost use Rattle.crp_plan.specs.declared.moves.Move.{Move};
ghost use Rattle.crp_plan.specs.Bay.{Completes, relocations};
ghost use Rattle.crp_chains.specs.Given.{lists_of};
ghost use Rattle.crp_thinning.specs.Found.{ShowsBound};

use crate::seeking::MAX_FAMILY;
use crate::thinned::Thinned;
use arrayvec::ArrayVec;
use crp_bounds::Bounded;
use crp_chains::bound_of;

/// Chains that were found, by the ranks of their containers, and the lower bound that they show.
#[derive(Drop)]
pub struct Family {
    /// The ranks of each chain, in the order in which its containers come up.
    pub chains: ArrayVec<ArrayVec<u8, 96>, 96>,
    /// The blocking bound with what the chains gain.
    pub bound: u32,
}

/// A number with one more digit behind it, as far as a rank goes.
fn with_digit(rank: u8, digit: u8) -> u8 {
    rank.saturating_mul(10)
        .saturating_add(digit.saturating_sub(b'0'))
}

/// The ranks of each chain in the text of a family.
fn chains_in(text: &[u8]) -> ArrayVec<ArrayVec<u8, 96>, 96> {
    let mut chains = ArrayVec::new();
    let mut chain = ArrayVec::<u8, 96>::new();
    let mut rank = 0;
    for symbol in text {
        if symbol.is_ascii_digit() {
            rank = with_digit(rank, *symbol);
            continue;
        }
        if rank > 0 && !chain.is_full() {
            chain.push(rank);
        }
        rank = 0;
        if *symbol != b'.' && !chain.is_empty() && !chains.is_full() {
            chains.push(chain);
            chain = ArrayVec::new();
        }
    }
    chains
}

/// Chains that show so many relocations at least, whichever rows are open to them. None may be found where there are some.
pub fn chains_reaching(bounded: &Bounded, need: u32) -> Option<Family>
    ensures shows { IfSome result (λ family. ShowsBound bounded.now.place (lists_of family.chains.items) family.bound) }
    ensures reached { IfSome result (λ family. need ≤ family.bound) }
    ensures below_every_run { IfSome result (λ family. (moves : List Move) → Completes bounded.now.place moves → family.bound ≤ relocations moves) }
    ensures few { IfSome result (λ family. family.bound ≤ 96 + 96 * 96) }
{
    let position = bounded.position();
    let wanted = need.saturating_sub(bounded.blocking());
    let mut text = ArrayVec::<u8, MAX_FAMILY>::new();
    if !Thinned::of(position).find_family(wanted, position.rows(), &mut text) {
        return None;
    }
    let chains = chains_in(text.as_slice());
    let bound = bound_of(bounded, chains.as_slice())?;
    if bound < need {
        return None;
    }
    Some(Family { chains, bound })
}
