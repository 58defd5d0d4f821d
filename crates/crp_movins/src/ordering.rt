//! Which segment orders a container.

ghost use Rattle.std.specs.Prelude.{◌≡◌, ◌≤◌, ◌<◌, ◌^◌, None};
ghost use Rattle.crp_movins.specs.Places.{kind_at, ordered_group};
ghost use Rattle.crp_movins.specs.Faults.{first_fault_before, orders_this, ordering_before};
ghost use Rattle.crp_movins.specs.Standings.{open_slot};

use crate::kind::{Kind, is_text, kind_at};
use crate::standing::{Place, Standing};

/// The segment orders this container.
fn orders_this(at: &Place, standing: &Standing, container: &[u8]) -> bool
    requires here { standing.now.group ≡ open_slot at.now.segments.now at.now.loading.now at.now.number }
    ensures { result ≡ orders_this at.now.segments.now at.now.loading.now container.now at.now.number }
{
    kind_at(at.segments, at.number).is_equipment()
        && standing.group.is_some()
        && is_text(at.text(2, 1), container)
}

/// The number of the last segment before this one that orders the container; 0 where none does.
pub(crate) fn ordering_before(at: &Place, container: &[u8]) -> usize
    requires numbered { 1 ≤ at.now.number }
    requires faultless { first_fault_before at.now.segments.now at.now.loading.now at.now.number ≡ None }
    requires small { at.now.number < 2 ^ 63 }
    ensures { result ≡ ordering_before at.now.segments.now at.now.loading.now container.now at.now.number }
{
    let mut standing = Standing::start();
    let mut found = 0;
    let mut number = 1;
    'segments: while number < at.number {
        let here = Place { number, ..*at };
        if orders_this(&here, &standing, container) {
            found = number;
        }
        standing = standing.after(&here, kind_at(at.segments, number));
        number += 1;
    }
    found
}
