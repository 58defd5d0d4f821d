//! Where the next tree is owed, below the first symbol of a part, and cuts that come there.
ghost use Rattle.std.specs.Prelude.{◌≡◌, ◌≤◌, ◌+◌, ◌-◌, ◌<◌, ◌∷◌, true, List, length, nat_lt, slice_set, Some, IfSome, IfNone};
ghost use Rattle.crp_bay.specs.Positions.{can_shift};
ghost use Rattle.crp_tree.specs.Spots.{Spot};
ghost use Rattle.crp_checker.specs.Pending.{pending, spot_at, owed_by, IsSound};
ghost use Rattle.crp_checker.specs.Kept.{need_by};

use crate::need::Need;
use crate::next::Next;
use crate::passing::{Passed, pass};
use crate::symbol::{enter, is_low};
use crate::walking::leave;
use crp_bounds::Bounded;
use crp_thinning::Thinned;

/// What paying leaves.
pub struct Paid {
    /// Whether the value of the cut is below what it needs.
    pub is_low: bool,
    /// Where trees are owed then.
    pub next: Next,
}

/// Leaves the branches all of whose trees came. The legal row of the last one that is left where the next tree is owed; none where none is
/// owed.
fn next_row(path: &mut Vec<u8>, above: usize, place: &mut Bounded) -> Option<u8>
    requires { above ≤ length path.old.items }
    ensures above { above ≤ length path.new.items }
    ensures same { pending (length path.new.items - above) path.new.items place.new ≡ pending (length path.old.items - above) path.old.items place.old }
    ensures none { IfNone result (length path.new.items ≤ above) }
    ensures legal { IfSome result (λ row. can_shift place.new.place row ≡ true) }
    ensures counts { IfSome result (λ row. 1 ≤ row) }
    ensures within { IfSome result (λ row. above < length path.new.items) }
    ensures owed { IfSome result (λ row. pending (length path.new.items - above) path.new.items place.new
        ≡ spot_at (Some row) (slice_set path.new.items (length path.new.items - 1) row) place.new.place
        ∷ pending (length path.new.items - above) (slice_set path.new.items (length path.new.items - 1) row) place.new) }
{
    while path.len() > above {
        let last = path.len() - 1;
        let Passed { taken: _, next } = pass(place, 0, path[last], &[], 0);
        if next.is_some() {
            return next;
        }
        leave(path, place);
    }
    None
}

/// The position where the next tree is owed, below the first symbol.
pub fn place_behind(path: &mut Vec<u8>, above: usize, place: &mut Bounded) -> Thinned
    requires { above ≤ length path.old.items }
    ensures above { above ≤ length path.new.items }
    ensures same { pending (length path.new.items - above) path.new.items place.new ≡ pending (length path.old.items - above) path.old.items place.old }
    ensures place { (spot : Spot) (owed : List Spot) → pending (length path.old.items - above) path.old.items place.old ≡ spot ∷ owed → result.place ≡ spot.place }
{
    let row = next_row(path, above, place);
    let is_entered = row.is_some();
    enter(place, row);
    let thinned = Thinned::of(place.position());
    if is_entered {
        let _popped = place.pop();
    }
    thinned
}

/// A cut with this bound comes where the next tree is owed, below the first symbol.
pub fn pay_behind(
    need: &Need,
    bound: u8,
    path: &mut Vec<u8>,
    above: usize,
    place: &mut Bounded,
) -> Paid
    requires above { above ≤ length path.old.items }
    requires some { (spot : Spot) × (owed : List Spot) × (pending (length path.old.items - above) path.old.items place.old ≡ spot ∷ owed) }
    ensures paid { (spot : Spot) (owed : List Spot) → pending (length path.old.items - above) path.old.items place.old ≡ spot ∷ owed
        → (owed_by result.next (length path.new.items - above) path.new.items place.new ≡ owed) × (result.is_low ≡ nat_lt (length spot.path + bound) (need_by need.now spot.path)) }
    ensures sound { IsSound result.next above path.new.items place.new }
{
    let Some(row) = next_row(path, above, place) else {
        unreachable!()
    };
    let last = path.len() - 1;
    path[last] = row;
    let is_low = is_low(need, path.as_slice(), u32::from(bound));
    let next = match next_row(path, above, place) {
        Some(_) => Next::Behind,
        None => Next::Nowhere,
    };
    Paid { is_low, next }
}
