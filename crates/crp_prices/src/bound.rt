//! The bound by prices.
ghost use Rattle.std.specs.Prelude.{◌≡◌, ℕ, ◌+◌, ◌*◌, ◌<◌, ◌≤◌, ◌++◌, [], List, length, IfOk};
ghost use Rattle.std.specs.List.{All};
ghost use Rattle.crp_plan.specs.declared.moves.Move.{Move};
ghost use Rattle.crp_plan.specs.Bay.{Problem as Statement, IsProblem, IsAt, IsPlan, path_of, Completes, relocations};
ghost use Rattle.crp_bay.specs.Reached.{IsReached};
ghost use Rattle.crp_bounds.specs.Bounds.{holds_lower};
ghost use Rattle.crp_prices.specs.PriceTable.{price_in};
ghost use Rattle.crp_prices.specs.Prices.{firsts_in as firsts_in_stack, firsts as firsts_of_place};
ghost use Rattle.crp_prices.specs.AllJobs.{pass_bound};

use crate::mosts::mosts_of;
use crate::prices::Prices;
use crate::row::least_of;
use crp_bay::Position;
use crp_bounds::blocking;
use std::alloc::{AllocError, Global};

/// Whether an ordered container of a lower rank stands in the stack.
fn has_lower(ordered: u8, c: u8, stack: &[u8]) -> bool
    ensures { result ≡ holds_lower ordered c stack.now }
{
    stack.iter().any(|d| *d <= ordered && *d < c)
}

/// The prices of the first jobs of a stack.
fn firsts_in(prices: &Prices, ordered: u8, stack: &[u8]) -> u32
    requires ordered { ordered ≤ 96 }
    requires low { length stack.now ≤ 8 }
    requires ranks { All (λ rank. rank ≤ 96) stack.now }
    ensures value { result ≡ firsts_in_stack (price_in prices.now) ordered [] stack.now }
    ensures few { result ≤ 8 * 9999 }
{
    let mut sum = 0;
    for (i, c) in stack.iter().enumerate() {
        if has_lower(ordered, *c, &stack[..i]) {
            sum += prices.get(*c, least_of(ordered, &stack[..i])) as u32;
        }
    }
    sum
}

/// The prices of all first jobs: what is due for the containers that block.
pub fn firsts_of(position: &Position, prices: &Prices) -> u32
    ensures value { result ≡ firsts_of_place (price_in prices.now) position.now.place }
    ensures few { result ≤ 96 * 9999 }
    ensures reached { IsReached position.now.place }
{
    let mut sum = 0;
    for row in 1..position.rows() + 1 {
        sum += firsts_in(prices, position.ordered(), position.stack(row));
    }
    sum
}

/// The bound by these prices: the blocking bound, and in units, rounded up, what the prices of all first jobs are above what the rows earn at
/// most by the pass.
pub fn price_bound_of(
    alloc: Global,
    position: &Position,
    prices: &Prices,
    unit: u32,
) -> Result<u32, AllocError>
    requires { 1 ≤ unit }
    ensures value { IfOk result (λ bound. bound ≡ pass_bound (price_in prices.now) unit position.now.place) }
    ensures below_every_run { IfOk result (λ bound. (moves : List Move) → Completes position.now.place moves → bound ≤ relocations moves) }
    ensures below_every_plan { IfOk result (λ bound. (p : Statement) (path more : List ℕ) (moves : List Move) → IsProblem p → IsAt p path position.now.place
        → IsPlan p moves → path_of moves ≡ path ++ more → length path + bound ≤ relocations moves) }
    ensures few { IfOk result (λ bound. bound ≤ 96 + 96 * 9999) }
{
    let mosts = mosts_of(alloc, position, prices, unit)?;
    let earned: u32 = mosts.as_slice().iter().sum();
    let units = firsts_of(position, prices)
        .saturating_sub(earned)
        .div_ceil(unit);
    Ok(blocking(position) + units)
}
