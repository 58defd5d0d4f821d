//! What a row earns at most.
ghost use Rattle.std.specs.Prelude.{◌≡◌, ℕ, suc, ◌+◌, ◌-◌, ◌*◌, ◌<◌, ◌≤◌, length, take};
ghost use Rattle.crp_prices.specs.PriceTable.{price_in};
ghost use Rattle.crp_prices.specs.Prices.{least_of as least_of_stack, standing_at};
ghost use Rattle.crp_prices.specs.Pass.{best, row_pass};
ghost use Rattle.crp_prices.specs.Tables.{AreInner};
ghost use Rattle.crp_prices.specs.Ready.{IsReady};

use crate::pass::Pass;
use crate::table::fill;

/// The least ordered rank of a stack; where there is none, the first that is not ordered.
pub(crate) fn least_of(ordered: u8, stack: &[u8]) -> u8
    requires { ordered < 255 }
    ensures { result ≡ least_of_stack ordered stack.now }
{
    let mut least = ordered + 1;
    for rank in stack {
        least = least.min(*rank);
    }
    least
}

/// How many containers of a stack still stand in a turn.
fn standing(stack: &[u8], turn: u8) -> usize
    ensures within { result ≤ length stack.now }
    ensures stands { take result stack.now ≡ standing_at turn stack.now }
{
    for (i, rank) in stack.iter().enumerate() {
        if *rank < turn {
            return i;
        }
    }
    stack.len()
}

/// What a scope brings. The columns are written over.
fn scope_brings(
    pass: &Pass,
    low: u8,
    from: u8,
    room: usize,
    inners: &[[u32; 9]],
    columns: &mut [[u32; 9]],
) -> u32
    requires ready { IsReady pass.now }
    requires low { low ≤ suc pass.now.ordered }
    requires from { from ≤ low }
    requires room { room < 9 }
    requires inners { AreInner (price_in pass.now.table.now) pass.now.unit pass.now.ordered pass.now.jobs.now (suc pass.now.ordered) inners.now }
    requires long { length columns.old ≡ length pass.now.jobs.now + 1 }
    ensures value { result ≡ best (price_in pass.now.table.now) pass.now.unit pass.now.ordered pass.now.jobs.now room low from pass.now.jobs.now }
    ensures long { length columns.new ≡ length pass.now.jobs.now + 1 }
{
    let begin = pass.starts[from as usize];
    fill(pass, low, begin, inners, columns);
    columns[begin][room]
}

/// What a row earns at most. The columns are written over.
pub(crate) fn row_most(
    pass: &Pass,
    height: u8,
    stack: &[u8],
    inners: &[[u32; 9]],
    columns: &mut [[u32; 9]],
) -> u32
    requires ready { IsReady pass.now }
    requires height { height ≤ 8 }
    requires inners { AreInner (price_in pass.now.table.now) pass.now.unit pass.now.ordered pass.now.jobs.now (suc pass.now.ordered) inners.now }
    requires long { length columns.old ≡ length pass.now.jobs.now + 1 }
    ensures value { result ≡ row_pass (price_in pass.now.table.now) pass.now.unit pass.now.ordered pass.now.jobs.now height stack.now }
    ensures few { result ≤ 8 * (98 * 9999) }
    ensures long { length columns.new ≡ length pass.now.jobs.now + 1 }
{
    let mut end = stack.len();
    let mut from = 0;
    let mut total = 0;
    'scopes: loop {
        let low = least_of(pass.ordered, &stack[..end]);
        let room = (height as usize).saturating_sub(end);
        total += scope_brings(pass, low, from, room, inners, columns);
        if low > pass.ordered {
            return total;
        }
        from = low + 1;
        end = standing(&stack[..end], from);
    }
}
